//! Properties of command lines. Each is the contract of a function that does nothing.

ghost use Rattle.std.specs.Prelude.{◌≡◌, ◌∷◌, [], List, codes, ℕ};
ghost use Rattle.bp_command.specs.Commands.{IsTaken};
ghost use Rattle.bp_command.specs.Programs.{Asks, IsNamed, Program, Requests};

/// Proves that the command accepts the plain arguments of a program, and that they ask for no other program.
pub fn plain_words_are_taken()
    ensures taken { (words : List (List ℕ)) (program : Program) → Asks words program → IsTaken words }
    ensures requested { (words : List (List ℕ)) (program other : Program) → Asks words program →
        Requests words other → other ≡ program }
{}

/// Proves that arguments that the command accepts name a program's subcommand, and give its values.
pub fn taken_words_have_values()
    ensures { (words : List (List ℕ)) → IsTaken words → IsNamed words }
{}

/// Proves that arguments ask for at most one program.
pub fn words_ask_for_one_program()
    ensures { (words : List (List ℕ)) (program other : Program) → Requests words program → Requests words other →
        other ≡ program }
{}

/// Proves that a request for the version of the program is no command, so a program may answer it by itself.
pub fn version_flags_are_no_command()
    ensures long { (called : List ℕ) → ¬ IsTaken (called ∷ codes "--version" ∷ []) }
    ensures short { (called : List ℕ) → ¬ IsTaken (called ∷ codes "-V" ∷ []) }
{}
