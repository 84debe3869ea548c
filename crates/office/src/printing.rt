// What is printed of a settled round.
ghost use Rattle.std.specs.Prelude.{◌≡◌, ◌<◌, ◌++◌, IfOk, string_bytes, OnOk};
ghost use Rattle.layout.specs.Slices.{flat};
ghost use Rattle.layout.specs.Tables.{applicants, workshops};
ghost use Rattle.points.specs.Standing.{market};
ghost use Rattle.cuts.specs.Promised.{cut_at};
ghost use Rattle.office.specs.Settling.{tables_settled};
ghost use Rattle.texts.specs.Text.{applicant_line, cut_line, text_of};

use crate::settled::Settled;
use std::alloc::{AllocError, Global};
use texts::{push_cut, push_head, push_none, push_placed};

// All that is printed of a settled round.
pub fn report(heap: Global, settled: &Settled) -> Result<String, AllocError>
    ensures { IfOk result (λ s. string_bytes s ≡ text_of (tables_settled settled.now)) }
{
    let round = settled.round();
    let mut text = String::with_capacity(
        heap,
        64 + 40 * round.applicants() + 32 * round.workshops(),
    )?;
    push_head(&mut text, settled.asks(), settled.placed())?;
    push_applicants(&mut text, settled)?;
    push_cuts(&mut text, settled)?;
    Ok(text)
}

// The lines of all cuts: by number, which the line says.
fn push_cuts(text: &mut String, settled: &Settled) -> Result<(), AllocError>
    ensures { OnOk result (string_bytes text.new ≡ string_bytes text.old ++ flat (λ w. cut_line w (cut_at (tables_settled settled.now) w)) (workshops (tables_settled settled.now))) }
{
    let m = settled.round().workshops();
    for w in 0..m {
        push_cut(text, w, settled.cut(w))?;
    }
    Ok(())
}

// The line of one applicant.
fn push_applicant(text: &mut String, settled: &Settled, a: usize) -> Result<(), AllocError>
    requires { a < applicants (tables_settled settled.now) }
    ensures { OnOk result (string_bytes text.new ≡ string_bytes text.old ++ applicant_line (market (tables_settled settled.now)) a) }
{
    let Some(position) = settled.position(a) else {
        return push_none(text, a);
    };
    let round = settled.round();
    let position = usize::from(position);
    let workshop = round.entries[round.starts[a] as usize + position];
    push_placed(text, a, workshop, position + 1)
}

// The lines of all applicants: by number, which the line says.
fn push_applicants(text: &mut String, settled: &Settled) -> Result<(), AllocError>
    ensures { OnOk result (string_bytes text.new ≡ string_bytes text.old ++ flat (applicant_line (market (tables_settled settled.now))) (applicants (tables_settled settled.now))) }
{
    let n = settled.round().applicants();
    for a in 0..n {
        push_applicant(text, settled, a)?;
    }
    Ok(())
}
