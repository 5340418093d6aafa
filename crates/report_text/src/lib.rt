//! The report on two otadata sectors, as text.
#![tactic(auto)]

mod text;

ghost use Rattle.std.specs.Prelude.{◌≡◌, ◌+◌, ◌≤◌, ◌++◌, length};
ghost use Rattle.report_text.specs.Report.{record_text, reading_text, digit_of, sector_line, active_line, report_of};
ghost use Rattle.report_text.specs.ReportLength.{ReportLength};
ghost use Rattle.report_text.specs.Example.{Example};

use otadata::{Fault, Reading, Record};
use sectors::SectorNumber;
pub use text::Text;

/// The report on the readings of both sectors: four lines.
#[tactic(auto, using(crate::proofs::Example::example, crate::proofs::Lengths::report_length), unfolding(crate::specs::Report::report_of))]
pub fn report(readings: [Reading; 2]) -> Text
    ensures exact { result ≡ report_of readings }
    ensures fits { length result ≤ 256 }
    ensures report_length { ReportLength }
    ensures example { Example }
{
    let [first, second] = readings;
    let mut text = Text::new();
    text.push_str("otadata report\n");
    push_sector(&mut text, SectorNumber::Zero, first);
    push_sector(&mut text, SectorNumber::One, second);
    push_active(&mut text, sectors::active(readings));
    text
}

/// The line of a sector.
#[tactic(auto, unfolding(crate::specs::Report::sector_line))]
fn push_sector(text: &mut Text, number: SectorNumber, reading: Reading)
    requires { length text.old + 40 ≤ 256 }
    ensures line { text.new ≡ text.old ++ sector_line number reading }
    ensures size { length text.new ≤ length text.old + 40 }
{
    text.push_str("sector ");
    text.push_str(digit(number));
    text.push_str(" ");
    push_reading(text, reading);
    text.push_str("\n");
}

/// What a sector reads as.
fn push_reading(text: &mut Text, reading: Reading)
    requires { length text.old + 30 ≤ 256 }
    ensures line { text.new ≡ text.old ++ reading_text reading }
    ensures size { length text.new ≤ length text.old + 30 }
{
    match reading {
        Ok(record) => push_record(text, record),
        Err(Fault::WrongSize) => text.push_str("none"),
        Err(fault) => text.push_str(fault.name()),
    }
}

/// A good record.
#[tactic(auto, using(crate::proofs::Sizes::ten_digits, crate::proofs::Sizes::state_name))]
fn push_record(text: &mut Text, good: Record)
    requires { length text.old + 30 ≤ 256 }
    ensures line { text.new ≡ text.old ++ record_text good }
    ensures size { length text.new ≤ length text.old + 30 }
{
    text.push_str("seq ");
    text.push_decimal(good.sequence.0);
    text.push_str(" state ");
    text.push_str(good.state.name());
}

/// The line of the active record.
fn push_active(text: &mut Text, sector: Option<SectorNumber>)
    requires { length text.old + 12 ≤ 256 }
    ensures line { text.new ≡ text.old ++ active_line sector }
    ensures size { length text.new ≤ length text.old + 12 }
{
    match sector {
        None => text.push_str("active none\n"),
        Some(number) => {
            text.push_str("active ");
            text.push_str(digit(number));
            text.push_str("\n");
        }
    }
}

/// The number of a sector, in decimal.
fn digit(number: SectorNumber) -> &'static str
    ensures text { result.now ≡ digit_of number }
    ensures size { length result.now ≡ 1 }
{
    match number {
        SectorNumber::Zero => "0",
        SectorNumber::One => "1",
    }
}
