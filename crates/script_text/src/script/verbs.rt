//! The verbs of a script. Each has a separate function, which keeps the proofs short.

ghost use Rattle.std.specs.Prelude.{◌≡◌, codes};
ghost use Rattle.std.specs.Str.{bytes_eq};

/// Returns whether the word is `begin`.
pub fn is_begin(word: &[u8]) -> bool
    ensures { result ≡ bytes_eq word.now (codes "begin") }
{
    matches!(word, b"begin")
}

/// Returns whether the word is `read`.
pub fn is_read(word: &[u8]) -> bool
    ensures { result ≡ bytes_eq word.now (codes "read") }
{
    matches!(word, b"read")
}

/// Returns whether the word is `write`.
pub fn is_write(word: &[u8]) -> bool
    ensures { result ≡ bytes_eq word.now (codes "write") }
{
    matches!(word, b"write")
}

/// Returns whether the word is `add`.
pub fn is_add(word: &[u8]) -> bool
    ensures { result ≡ bytes_eq word.now (codes "add") }
{
    matches!(word, b"add")
}

/// Returns whether the word is `prepare`.
#[tactic(auto, using(crate::proofs::VerbWords::is_word))]
pub fn is_prepare(word: &[u8]) -> bool
    ensures { result ≡ bytes_eq word.now (codes "prepare") }
{
    matches!(word, b"prepare")
}

/// Returns whether the word is `commit`.
#[tactic(auto, using(crate::proofs::VerbWords::is_word))]
pub fn is_commit(word: &[u8]) -> bool
    ensures { result ≡ bytes_eq word.now (codes "commit") }
{
    matches!(word, b"commit")
}

/// Returns whether the word is `abort`.
pub fn is_abort(word: &[u8]) -> bool
    ensures { result ≡ bytes_eq word.now (codes "abort") }
{
    matches!(word, b"abort")
}

/// Returns whether the word is `delete`.
#[tactic(auto, using(crate::proofs::VerbWords::is_word))]
pub fn is_delete(word: &[u8]) -> bool
    ensures { result ≡ bytes_eq word.now (codes "delete") }
{
    matches!(word, b"delete")
}

/// Returns whether the word is `scan`.
pub fn is_scan(word: &[u8]) -> bool
    ensures { result ≡ bytes_eq word.now (codes "scan") }
{
    matches!(word, b"scan")
}
