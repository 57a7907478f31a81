//! What the command `verify` prints.

ghost use Rattle.std.specs.Prelude.{◌≡◌, ◌++◌, OnOk, IfOk, string_bytes};
ghost use Rattle.r6_execute.specs.Reports.{class_text, first_text, others_text, parities_text, report_text};

use r6_engine::{ClassCounts, Report, WrongRow};
use r6_layout::Geometry;
use r6_recover::RowClass;
use std::alloc::{AllocError, Global};
use std::fmt::Write;

fn write_class(text: &mut String, class: RowClass) -> Result<(), AllocError>
    ensures { OnOk result (string_bytes text.new ≡ string_bytes text.old ++ class_text class) }
{
    match class {
        RowClass::Consistent => write!(text, "consistent"),
        RowClass::WrongP => write!(text, "wrong_p"),
        RowClass::WrongQ => write!(text, "wrong_q"),
        RowClass::WrongData(index) => write!(text, "wrong_data {index}"),
        RowClass::Many => write!(text, "many"),
    }
}

// The first words of the line of counts.
fn write_parities(text: &mut String, rows: u64, counts: &ClassCounts) -> Result<(), AllocError>
    ensures { OnOk result (string_bytes text.new ≡ string_bytes text.old ++ parities_text rows counts.now) }
{
    let (consistent, wrong_p, wrong_q) = (counts.consistent, counts.wrong_p, counts.wrong_q);
    write!(
        text,
        "rows {rows} consistent {consistent} wrong_p {wrong_p} wrong_q {wrong_q}"
    )
}

// Its other words.
fn write_others(text: &mut String, counts: &ClassCounts) -> Result<(), AllocError>
    ensures { OnOk result (string_bytes text.new ≡ string_bytes text.old ++ others_text counts.now) }
{
    let (wrong_data, many, skipped) = (counts.wrong_data, counts.many, counts.skipped);
    writeln!(
        text,
        " wrong_data {wrong_data} many {many} skipped {skipped}"
    )
}

fn write_first(text: &mut String, first: Option<WrongRow>) -> Result<(), AllocError>
    ensures { OnOk result (string_bytes text.new ≡ string_bytes text.old ++ first_text first) }
{
    let Some(wrong) = first else {
        return Ok(());
    };
    let row = wrong.row;
    write!(text, "first {row} ")?;
    write_class(text, wrong.class)?;
    writeln!(text)
}

/// A report as text: a line of how many rows have each class, and, where some row isn't consistent, a line of the
/// first with its class.
pub fn reported(alloc: Global, geometry: &Geometry, report: &Report) -> Result<String, AllocError>
    ensures { IfOk result (λ text. string_bytes text ≡ report_text geometry.now report.now) }
{
    let mut text = String::new(alloc);
    write_parities(&mut text, geometry.rows(), &report.counts)?;
    write_others(&mut text, &report.counts)?;
    write_first(&mut text, report.first_wrong)?;
    Ok(text)
}
