//! Rule 4: periods and frequencies.

use crate::finders::{Break, site_of_number};
use crate::outlines::Outline;
use crate::rule_breaks::RuleBreak;
use std::alloc::AllocError;

/// Periods that are too small or too large, and frequencies that don't divide them.
pub(crate) fn not_dividing<'a>(
    outline: &Outline<'a>,
    breaks: &mut Vec<Break<'a>>,
) -> Result<(), AllocError> {
    for mode in &outline.modes {
        let period = mode.period.value;
        if period == 0 || period > 1_000_000 {
            breaks.push(Break {
                what: RuleBreak::Period {
                    mode: mode.name.name,
                    period,
                },
                site: site_of_number(mode.period),
                other: None,
            })?;
        }
        for driver in &mode.drivers {
            let frequency = driver.frequency.value;
            if frequency == 0 || !period.is_multiple_of(frequency) {
                breaks.push(Break {
                    what: RuleBreak::Frequency {
                        mode: mode.name.name,
                        period,
                        frequency,
                    },
                    site: site_of_number(driver.frequency),
                    other: Some((site_of_number(mode.period), "this is the period")),
                })?;
            }
        }
    }
    Ok(())
}
