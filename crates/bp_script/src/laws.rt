//! Properties of the lines of a script.

ghost use Rattle.bp_plain.specs.Calls.{Call};
ghost use Rattle.bp_plain.specs.Export.{IsExportable, IsOfBytes, are_bytes, export_calls};
ghost use Rattle.bp_plain.specs.PlainTree.{FileTree};
ghost use Rattle.bp_script.specs.Commands.Command.{file_call};
ghost use Rattle.bp_script.specs.Commands.{command_of, path_bytes};
ghost use Rattle.bp_script.specs.Export.{AreRead, FitsLine, FitsText, IsOneLine, IsSpelled, call_line, path_word};
ghost use Rattle.std.specs.Prelude.{All, ◌≡◌, List, true, ℕ};

/// Proves that the field of a path is decoded to the path.
pub fn path_words_are_decoded()
    ensures { (text : List ℕ) → are_bytes text ≡ true → path_bytes (path_word text) ≡ text }
{}

/// Proves that the line of a call that can be spelled asks for that call.
pub fn call_lines_ask_for_their_calls()
    ensures { (call : Call) → IsSpelled call → FitsLine call → command_of (call_line call) ≡ file_call call }
{}

/// Proves that the line of a call that can be spelled is one line.
pub fn call_lines_are_lines()
    ensures { (call : Call) → IsSpelled call → IsOneLine (call_line call) }
{}

/// Proves that each line of the export of a tree asks for its call, is one line, and fits into the room of a reply.
pub fn exports_are_read()
    ensures read { (tree : FileTree) → IsExportable tree → IsOfBytes tree → AreRead (export_calls tree) }
    ensures whole { (tree : FileTree) → IsExportable tree → IsOfBytes tree →
        All (λ call. IsOneLine (call_line call)) (export_calls tree) }
    ensures short { (tree : FileTree) → IsExportable tree → IsOfBytes tree → All FitsText (export_calls tree) }
{}
