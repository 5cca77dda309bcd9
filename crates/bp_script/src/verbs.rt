//! The verbs of lines: their first fields.

ghost use Rattle.bp_script.specs.Commands.{pair_command, word_command};
ghost use Rattle.bp_script.specs.Lines.{pair_row, word_row};
ghost use Rattle.std.specs.Prelude.{List, bytes_eq, codes, ◌≡◌, ℕ};

/// The verb of a line that has one more field.
#[derive(Clone, Copy)]
pub(crate) enum WordVerb {
    Crash,
    Storm,
    Cache,
    Upgrade,
    /// The other field is a path.
    Path(PathVerb),
}

/// Finds the verb of a line of two fields.
pub(crate) fn word_verb(verb: &[u8]) -> Option<WordVerb>
    ensures { (word : List ℕ) → word_command verb.now word ≡ word_row result word }
{
    match verb {
        b"crash" => Some(WordVerb::Crash),
        b"storm" => Some(WordVerb::Storm),
        b"cache" => Some(WordVerb::Cache),
        b"upgrade" => Some(WordVerb::Upgrade),
        b"create" => Some(WordVerb::Path(PathVerb::Create)),
        b"mkdir" => Some(WordVerb::Path(PathVerb::Mkdir)),
        b"unlink" => Some(WordVerb::Path(PathVerb::Unlink)),
        b"rmdir" => Some(WordVerb::Path(PathVerb::Rmdir)),
        b"list" => Some(WordVerb::Path(PathVerb::List)),
        b"stat" => Some(WordVerb::Path(PathVerb::Stat)),
        b"links" => Some(WordVerb::Path(PathVerb::Links)),
        b"slist" => Some(WordVerb::Path(PathVerb::SnapList)),
        b"sstat" => Some(WordVerb::Path(PathVerb::SnapStat)),
        _ => None,
    }
}

/// The verb of a line whose other field is a path.
#[derive(Clone, Copy)]
pub(crate) enum PathVerb {
    Create,
    Mkdir,
    Unlink,
    Rmdir,
    List,
    Stat,
    Links,
    SnapList,
    SnapStat,
}

/// The verb of a line that has a path and one more field.
#[derive(Clone, Copy)]
pub(crate) enum PairVerb {
    Truncate,
    Rename,
    Link,
    Attribute,
}

/// Finds the verb of a line of a path and a last field.
pub(crate) fn pair_verb(verb: &[u8]) -> Option<PairVerb>
    ensures { (path last : List ℕ) → pair_command verb.now path last ≡ pair_row result path last }
{
    match verb {
        b"truncate" => Some(PairVerb::Truncate),
        b"rename" => Some(PairVerb::Rename),
        b"link" => Some(PairVerb::Link),
        b"attr" => Some(PairVerb::Attribute),
        _ => None,
    }
}

/// Whether a field is the verb of a batch.
pub(crate) fn is_batch(verb: &[u8]) -> bool
    ensures { result ≡ bytes_eq verb.now (codes "batch") }
{
    matches!(verb, b"batch")
}
