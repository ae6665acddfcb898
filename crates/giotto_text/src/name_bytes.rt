//! The bytes and the shape of names, in programs and elsewhere.

ghost use Rattle.std.specs.Prelude.{◌≡◌};
ghost use Rattle.std.specs.List.{list_all};
ghost use Rattle.giotto_text.specs.Bytes.{is_digit, is_letter, is_name, is_name_byte};

/// Whether a byte is `A` to `Z`, `a` to `z`, or `_`.
pub fn is_letter(byte: u8) -> bool
    ensures { result ≡ is_letter byte }
{
    byte.is_ascii_alphabetic() || byte == b'_'
}

/// Whether a byte is `0` to `9`.
pub fn is_digit(byte: u8) -> bool
    ensures { result ≡ is_digit byte }
{
    byte.is_ascii_digit()
}

/// Whether a byte may be in a name: a letter, `_` or a digit.
pub fn is_name_byte(byte: u8) -> bool
    ensures { result ≡ is_name_byte byte }
{
    is_letter(byte) || is_digit(byte)
}

/// Whether a word has the shape of a name: a letter or `_`, then letters, digits or `_`; at most 32 bytes. Keywords
/// have this shape too.
#[tactic(auto, using(crate::proofs::NameBytes::name_by_parts))]
pub fn is_name(word: &[u8]) -> bool
    ensures { result ≡ is_name word.now }
{
    let [first, rest @ ..] = word else {
        return false;
    };
    is_letter(*first) && are_name_bytes(rest) && word.len() <= 32
}

fn are_name_bytes(bytes: &[u8]) -> bool
    ensures { result ≡ list_all is_name_byte bytes.now }
{
    bytes.iter().all(|byte| is_name_byte(*byte))
}
