//! Properties of sessions, in terms of an abstract tree. An image represents the tree that a mount of it sees
//! (`by_roles`).

ghost use Rattle.std.specs.Prelude.{◌≡◌, List, [], map};
ghost use Rattle.bp_layout.specs.Bytes.{image_bytes};
ghost use Rattle.bp_layout.specs.Words.{Image};
ghost use Rattle.bp_session.specs.Files.{AreWordsOf64Bits};
ghost use Rattle.bp_plain.specs.Export.{IsExportable, IsOfBytes, export_calls};
ghost use Rattle.bp_plain.specs.PlainTree.{FileTree};
ghost use Rattle.bp_script.specs.Commands.{Command};
ghost use Rattle.bp_script.specs.Commands.Command.{file_call};
ghost use Rattle.bp_script.specs.Export.{export_text};
ghost use Rattle.bp_script.specs.Texts.{LineReply};
ghost use Rattle.bp_session.specs.Lines.{commands_from};
ghost use Rattle.bp_session.specs.Session.{State};
ghost use Rattle.pm_region.specs.Memory.{Memory};
ghost use Rattle.bp_session.specs.PlainSession.{PlainState};
ghost use Rattle.bp_session.specs.SessionLaws.{ExportMakesTree, IsOfTree, KeepsCalls, SplitsAt, StaysPlain};

/// Proves that a session over an image that represents a tree is one of that abstract tree: the replies are the
/// tree's, and at the session's end a crash at any point of the log leaves an image that represents the tree after
/// the calls that it keeps.
pub fn sessions_are_plain()
    ensures { (old new : State Memory) (tree : FileTree) (commands : List Command) (replies : List LineReply) →
        IsOfTree tree old commands replies new }
{}

/// Proves the same of a session that begins with words that follow an abstract tree.
pub fn sessions_stay_plain()
    ensures { (old new : State Memory) (plain : PlainState) (commands : List Command) (replies : List LineReply) →
        StaysPlain plain old commands replies new }
{}

/// Proves that a crash at any point since the last drain leaves an image that represents the tree after the calls
/// that it keeps.
pub fn crashes_keep_calls()
    ensures { (old new : State Memory) (tree : FileTree) (commands : List Command) (replies : List LineReply) →
        KeepsCalls tree old commands replies new }
{}

/// Proves that a session has a state after each of its lines, so that all that holds at its end holds there.
pub fn sessions_split()
    ensures { (old new : State Memory) (first rest : List Command) (replies : List LineReply) →
        SplitsAt old first rest replies new }
{}

/// Proves that bytes are those of at most one image.
pub fn bytes_have_one_image()
    ensures { (first second : Image) → AreWordsOf64Bits first → AreWordsOf64Bits second →
        image_bytes first ≡ image_bytes second → first ≡ second }
{}

/// Proves that the script of an export asks for the calls of that export.
pub fn exports_ask_for_their_calls()
    ensures { (tree : FileTree) → IsExportable tree → IsOfBytes tree →
        commands_from [] (export_text tree) ≡ map file_call (export_calls tree) }
{}

/// Proves that a session over the script of an export, from an empty file system of the tree's version, ends in that
/// tree without its snapshot, if no reply reports lack of space.
pub fn exports_make_their_trees()
    ensures { (old new : State Memory) (tree : FileTree) (replies : List LineReply) → IsExportable tree → IsOfBytes tree →
        ExportMakesTree tree old replies new }
{}
