//! The speaker of a script's line, and the name that the reply is addressed to.

ghost use Rattle.std.specs.Prelude.{◌≡◌, ℕ, List};
ghost use Rattle.rig_model.specs.Script.{addressee_of, speaker_of};
ghost use Rattle.tenant_lines.specs.Words.{first_word_of};

use tenant_lines::config::{Config, TenantId};
use tenant_lines::words;

/// The speaker of a line.
#[derive(Clone, Copy, Debug, PartialEq, Eq)]
pub enum Speaker {
    /// The line is blank.
    Nobody,
    /// The line begins with `op`.
    Operator,
    /// The line begins with the name of the tenant at this place of the roster.
    Tenant(TenantId),
    /// The line begins with another word.
    Unknown,
}

/// The speaker of a line, by its first word.
pub fn who_speaks(config: &Config, line: &str) -> Speaker
    ensures { result ≡ speaker_of config.now line.now }
{
    who_is(config, words::first_word(line))
}

/// The speaker of a line with this first word. `Nobody` if the word is empty.
pub fn who_is(config: &Config, word: &str) -> Speaker
    ensures { (line : List ℕ) → word.now ≡ first_word_of line → result ≡ speaker_of config.now line }
{
    if word.is_empty() {
        return Speaker::Nobody;
    }
    if words::is_word(word, "op") {
        return Speaker::Operator;
    }
    match config.place_of(word) {
        Some(tenant) => Speaker::Tenant(tenant),
        None => Speaker::Unknown,
    }
}

/// The name that the reply to a line is addressed to, by the line's speaker: its first word, or `host` if nobody has that name.
pub fn addressee(speaker: Speaker, line: &str) -> &str
    ensures { result.now ≡ addressee_of speaker line.now }
{
    match speaker {
        Speaker::Nobody | Speaker::Operator | Speaker::Tenant(_) => words::first_word(line),
        Speaker::Unknown => "host",
    }
}
