//! Cuts a program text into tokens.

ghost use Rattle.std.specs.Prelude.{◌≡◌, ◌≢◌, [], ◌∷◌, ◌++◌, ◌<◌, ◌≤◌, IfOk, IfErr, IfSome, Ok, Err, length};
ghost use Rattle.std.specs.List.{find, prefix_len, AllPass};
ghost use Rattle.giotto_tasks.specs.Names.{same_name};
ghost use Rattle.giotto_text.specs.Bytes.{is_digit, is_name_byte, is_blank_of_text};
ghost use Rattle.giotto_text.specs.Tokens.{first_token, text_of_keyword, word, number, mark, tokens_of, keyword_of, symbol_at};
ghost use Rattle.giotto_text.specs.cited.Reading.{IsLexicalFault};
ghost use Rattle.giotto_text.specs.declared.faults.ReadFault.{ReadFault};
ghost use Rattle.giotto_text.specs.declared.faults.ReadFault.TheVariants.{Memory};
ghost use Rattle.giotto_text.specs.inner.Adding.{placed, with_found};

use crate::faults::ReadFault;
use crate::name_bytes::{is_digit, is_letter, is_name_byte};
use crate::tokens::{Keyword, PlacedToken, Symbol, Token};
use giotto_tasks::names::Name;
use std::alloc::Global;

/// The tokens of a program text, each as long as possible, with their offsets in bytes.
///
/// Makes one pass over the text. Blanks (space, tab, CR, LF) separate tokens and mean nothing else. Fails with `Syntax`
/// and the first offset at which a token should begin but none does, or with `Memory`. A name of more than 32 bytes is
/// not a token. A number of more than 19 digits or above 9223372036854775808 isn't one either.
pub fn tokens(alloc: Global, text: &[u8]) -> Result<Vec<PlacedToken>, ReadFault>
    ensures ok { IfOk result (λ ts. tokens_of text.now ≡ Ok ts.items) }
    ensures fault { IfErr result (IsLexicalFault text.now) }
{
    let mut found = list_for(alloc, text);
    let mut start = 0;
    while start < text.len() {
        if is_blank(text[start]) {
            start += 1;
        } else {
            let len = push_first(&mut found, &text[start..], start)?;
            start += len;
        }
    }
    Ok(found)
}

// An empty list for the tokens of a text. Reserves space for half as many tokens as the text has bytes after its
// leading blanks, or none if that allocation fails.
fn list_for(alloc: Global, text: &[u8]) -> Vec<PlacedToken>
    ensures { result.items ≡ [] }
{
    let bytes = text.len() - blanks_len(text);
    match Vec::with_capacity(alloc, bytes / 2) {
        Ok(found) => found,
        Err(_) => Vec::new(alloc),
    }
}

// The number of blanks at the start of the text.
fn blanks_len(text: &[u8]) -> usize
    ensures { result ≡ prefix_len is_blank_of_text text.now }
{
    text.iter().take_while(|c| is_blank(**c)).count()
}

// Adds the token at the start of the text, which is at this offset, and returns the token's length in bytes. Each kind
// of token is written to the list where it is found: returning it first would copy it.
fn push_first(found: &mut Vec<PlacedToken>, text: &[u8], offset: usize) -> Result<usize, ReadFault>
    ensures added { IfOk result (λ len. with_found found.old.items offset (first_token text.now) ≡ Ok (found.new.items, len)) }
    ensures within { IfOk result (λ len. (0 < len) × (len ≤ length text.now)) }
    ensures fault { (f : ReadFault) → result ≡ Err f → f ≢ Memory → with_found found.old.items offset (first_token text.now) ≡ Err f }
{
    let [first, ..] = text else {
        return Err(ReadFault::Syntax(offset));
    };
    if is_letter(*first) {
        push_word(found, &text[..name_len(text)], offset)
    } else if is_digit(*first) {
        push_number(found, &text[..digits_len(text)], offset)
    } else {
        push_mark(found, text, offset)
    }
}

// A run of name bytes: a keyword, or a name of at most 32 bytes.
fn push_word(found: &mut Vec<PlacedToken>, run: &[u8], offset: usize) -> Result<usize, ReadFault>
    requires { AllPass is_name_byte run.now }
    ensures added { IfOk result (λ len. with_found found.old.items offset (word run.now) ≡ Ok (found.new.items, len)) }
    ensures whole { IfOk result (λ len. len ≡ length run.now) }
    ensures fault { (f : ReadFault) → result ≡ Err f → f ≢ Memory → with_found found.old.items offset (word run.now) ≡ Err f }
{
    if let Some(keyword) = keyword_of(run) {
        push(found, Token::Keyword(keyword), offset)?;
        return Ok(run.len());
    }
    let Some(name) = Name::new(as_text(run)) else {
        return Err(ReadFault::Syntax(offset));
    };
    push(found, Token::Name(name), offset)?;
    Ok(run.len())
}

// A run of digits.
fn push_number(found: &mut Vec<PlacedToken>, run: &[u8], offset: usize) -> Result<usize, ReadFault>
    requires begun { 0 < length run.now }
    requires digits { AllPass is_digit run.now }
    ensures added { IfOk result (λ len. with_found found.old.items offset (number run.now) ≡ Ok (found.new.items, len)) }
    ensures whole { IfOk result (λ len. len ≡ length run.now) }
    ensures fault { (f : ReadFault) → result ≡ Err f → f ≢ Memory → with_found found.old.items offset (number run.now) ≡ Err f }
{
    let Some((token, len)) = number(run) else {
        return Err(ReadFault::Syntax(offset));
    };
    push(found, token, offset)?;
    Ok(len)
}

// The longest symbol at the start of the text.
fn push_mark(found: &mut Vec<PlacedToken>, text: &[u8], offset: usize) -> Result<usize, ReadFault>
    ensures added { IfOk result (λ len. with_found found.old.items offset (mark text.now) ≡ Ok (found.new.items, len)) }
    ensures within { IfOk result (λ len. (0 < len) × (len ≤ length text.now)) }
    ensures fault { (f : ReadFault) → result ≡ Err f → f ≢ Memory → with_found found.old.items offset (mark text.now) ≡ Err f }
{
    let Some(symbol) = symbol_at(text) else {
        return Err(ReadFault::Syntax(offset));
    };
    push(found, Token::Symbol(symbol), offset)?;
    Ok(symbol.as_str().len())
}

#[inline(always)]
fn push(found: &mut Vec<PlacedToken>, token: Token, offset: usize) -> Result<(), ReadFault>
    ensures added { IfOk result (λ _. found.new.items ≡ found.old.items ++ placed token offset ∷ []) }
    ensures fault { IfErr result (λ f. f ≡ Memory) }
{
    let placed = PlacedToken { token, offset };
    match found.push(placed) {
        Ok(()) => Ok(()),
        Err(_) => Err(ReadFault::Memory),
    }
}

// The keyword with this spelling. Compares only keywords with the same first letter. No keyword has a single letter.
fn keyword_of(run: &[u8]) -> Option<Keyword>
    ensures { result ≡ keyword_of run.now }
{
    let [first, _, ..] = run else {
        return None;
    };
    match first {
        b'a' => one_of(run, &[Keyword::Actuator, Keyword::ActFreq]),
        b'd' => one_of(run, &[Keyword::Do]),
        b'e' => one_of(run, &[Keyword::ExitFreq, Keyword::Else]),
        b'g' => one_of(run, &[Keyword::Grant]),
        b'i' => one_of(run, &[Keyword::If]),
        b'l' => one_of(run, &[Keyword::Line]),
        b'm' => one_of(run, &[Keyword::Mode]),
        b'o' => one_of(run, &[Keyword::Output]),
        b'p' => one_of(run, &[Keyword::Period]),
        b'r' => one_of(run, &[Keyword::Repeat]),
        b's' => one_of(run, &[Keyword::Sensor, Keyword::State, Keyword::Start]),
        b't' => one_of(run, &[Keyword::Task, Keyword::TaskFreq]),
        _ => None,
    }
}

// The first of these keywords with this spelling.
fn one_of(run: &[u8], keywords: &[Keyword]) -> Option<Keyword>
    ensures { result ≡ find (λ k. same_name (text_of_keyword k) run.now) keywords.now }
{
    keywords
        .iter()
        .copied()
        .find(|keyword| keyword.as_str().as_bytes() == run)
}

// A run of digits: at most 19 of them, and at most 9223372036854775808.
fn number(run: &[u8]) -> Option<(Token, usize)>
    requires begun { 0 < length run.now }
    requires digits { AllPass is_digit run.now }
    ensures token { result ≡ number run.now }
    ensures whole { IfSome result (λ r. r.1 ≡ length run.now) }
{
    if run.len() > 19 {
        return None;
    }
    let Ok(value) = as_text(run).parse::<u64>() else {
        return None;
    };
    if value > 1 << 63 {
        return None;
    }
    Some((Token::Number(value), run.len()))
}

fn symbol_at(text: &[u8]) -> Option<Symbol>
    ensures { result ≡ symbol_at text.now }
{
    match text {
        [b':', b'=', ..] => Some(Symbol::Becomes),
        [b'=', b'=', ..] => Some(Symbol::EqualEqual),
        [b'!', b'=', ..] => Some(Symbol::NotEqual),
        [b'<', b'=', ..] => Some(Symbol::AtMost),
        [b'>', b'=', ..] => Some(Symbol::AtLeast),
        [b'&', b'&', ..] => Some(Symbol::AndAnd),
        [b'|', b'|', ..] => Some(Symbol::OrOr),
        [first, ..] => single(*first),
        [] => None,
    }
}

// The symbol of this single byte.
fn single(byte: u8) -> Option<Symbol>
    ensures { result ≡ symbol_at (byte ∷ []) }
{
    match byte {
        b';' => Some(Symbol::Semicolon),
        b',' => Some(Symbol::Comma),
        b'(' => Some(Symbol::OpenParenthesis),
        b')' => Some(Symbol::CloseParenthesis),
        b'{' => Some(Symbol::OpenBrace),
        b'}' => Some(Symbol::CloseBrace),
        b'+' => Some(Symbol::Plus),
        b'-' => Some(Symbol::Minus),
        b'*' => Some(Symbol::Star),
        b'/' => Some(Symbol::Slash),
        b'%' => Some(Symbol::Percent),
        b'<' => Some(Symbol::Less),
        b'>' => Some(Symbol::Greater),
        b'!' => Some(Symbol::Not),
        _ => None,
    }
}

// The bytes as text: a run of name bytes or digits is ASCII.
fn as_text(run: &[u8]) -> &str
    requires { AllPass is_name_byte run.now }
    ensures { result.now ≡ run.now }
{
    unsafe { std::str::from_utf8_unchecked(run) }
}

// The number of name bytes at the start of the text.
fn name_len(text: &[u8]) -> usize
    ensures { result ≡ prefix_len is_name_byte text.now }
{
    text.iter().take_while(|c| is_name_byte(**c)).count()
}

// The number of digits at the start of the text.
fn digits_len(text: &[u8]) -> usize
    ensures { result ≡ prefix_len is_digit text.now }
{
    text.iter().take_while(|c| is_digit(**c)).count()
}

fn is_blank(c: u8) -> bool
    ensures { result ≡ is_blank_of_text c }
{
    // the first test is enough for most bytes
    c <= b' ' && matches!(c, b' ' | b'\t' | b'\r' | b'\n')
}
