//! The words of a value that commas separate.
ghost use Rattle.std.specs.Prelude.{◌≡◌, length, reverse};
ghost use Rattle.std.specs.Str.{str_eq_ignore_ascii_case};
ghost use Rattle.httparse.specs.Grammar.{skip_ows, trim_ows};
ghost use Rattle.http_wire.specs.Fields.{has_word as value_has_word};

/// The bytes without the spaces and tabs before them.
fn trim_front(bytes: &[u8]) -> &[u8]
    ensures { result.now ≡ skip_ows bytes.now }
{
    let mut rest = bytes;
    while let [b' ' | b'\t', behind @ ..] = rest {
        rest = behind;
    }
    rest
}

/// The bytes without the spaces and tabs behind them.
fn trim_back(bytes: &[u8]) -> &[u8]
    ensures { result.now ≡ reverse (skip_ows (reverse bytes.now)) }
{
    let mut rest = bytes;
    while let [front @ .., b' ' | b'\t'] = rest {
        rest = front;
    }
    rest
}

/// Whether two words are the same, without case.
fn is_same(word: &[u8], other: &[u8]) -> bool
    ensures { result ≡ str_eq_ignore_ascii_case word.now other.now }
{
    word.eq_ignore_ascii_case(other)
}

/// Whether the piece is this word, without case and without the spaces and tabs around it.
fn is_word(piece: &[u8], word: &[u8]) -> bool
    ensures { result ≡ str_eq_ignore_ascii_case (trim_ows piece.now) word.now }
{
    is_same(trim_back(trim_front(piece)), word)
}

/// Whether one of the words of the value is this one, without case.
pub fn has_word(value: &[u8], word: &[u8]) -> bool
    ensures { result ≡ value_has_word word.now value.now }
{
    value
        .split(|byte| *byte == b',')
        .any(|piece| is_word(piece, word))
}
