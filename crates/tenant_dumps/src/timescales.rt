//! The timescales of a dump.

ghost use Rattle.std.specs.Prelude.{◌≡◌, ◌||◌, codes};
ghost use Rattle.giotto_tasks.specs.Names.{same_name};
ghost use Rattle.tenant_dumps.specs.inner.Lines.{is_timescale, is_timescale_number, is_timescale_unit};

/// The timescale of a dump for which none is given.
pub const TIMESCALE: &str = "1 s";

/// Whether a dump can have this timescale: 1, 10 or 100, a space, and `s`, `ms`, `us`, `ns`, `ps` or `fs`.
pub fn is_timescale(text: &str) -> bool
    ensures { result ≡ is_timescale text.now }
{
    match text.split_once(' ') {
        Some((number, unit)) => is_number(number) && is_unit(unit),
        None => false,
    }
}

fn is_number(text: &str) -> bool
    ensures { result ≡ is_timescale_number text.now }
{
    text == "1" || text == "10" || text == "100"
}

fn is_unit(text: &str) -> bool
    ensures { result ≡ is_timescale_unit text.now }
{
    text == "s" || text == "ms" || text == "us" || text == "ns" || text == "ps" || text == "fs"
}
