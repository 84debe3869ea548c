// Small rounds and their letters written as bytes, apart from the writers under trial.
use crate::case::{Addressee, Applicant, Case};
use crate::cut::Cut;
use std::alloc::{AllocError, Global};

// Stands for no place in a letter's bytes, and in what the program leaves for an applicant.
pub const NO_PLACE: u8 = 255;

// As many bytes as a small round or one of its letters has, or more.
pub const ROOM: usize = 160;

// The byte of a small number: a workshop, a length or a number of places.
fn byte(x: usize) -> u8 {
    (x & 0xff) as u8
}

// The two bytes of the number of an applicant or a row.
fn word(x: usize) -> [u8; 2] {
    ((x & 0xffff) as u16).to_le_bytes()
}

fn push_list(out: &mut Vec<u8>, applicant: &Applicant) -> Result<(), AllocError> {
    out.extend_from_slice(&applicant.lot.to_le_bytes())?;
    out.push(byte(applicant.wishes.len()))?;
    for w in &applicant.wishes {
        out.push(byte(*w))?;
    }
    Ok(())
}

// How many rows there are, and the rows by workshop, in the order of applicants: the workshop, the applicant and the points.
fn push_rows(out: &mut Vec<u8>, case: &Case) -> Result<(), AllocError> {
    let rows = case.applicants.iter().fold(0, |rows: usize, applicant| {
        rows.saturating_add(applicant.points.iter().flatten().count())
    });
    out.extend_from_slice(&word(rows))?;
    for (w, _) in case.places.iter().enumerate() {
        for (a, applicant) in case.applicants.iter().enumerate() {
            if let Some(points) = applicant.points_at(w) {
                out.push(byte(w))?;
                out.extend_from_slice(&word(a))?;
                out.extend_from_slice(&points.to_le_bytes())?;
            }
        }
    }
    Ok(())
}

pub(crate) fn write(alloc: Global, case: &Case) -> Result<Vec<u8>, AllocError> {
    let mut out = Vec::with_capacity(alloc, ROOM)?;
    out.extend_from_slice(&word(case.applicants.len()))?;
    out.extend_from_slice(&word(case.places.len()))?;
    for places in &case.places {
        out.push(byte(*places))?;
    }
    for applicant in &case.applicants {
        push_list(&mut out, applicant)?;
    }
    push_rows(&mut out, case)?;
    Ok(out)
}

fn push_cut(out: &mut Vec<u8>, cut: Cut) -> Result<(), AllocError> {
    let (kind, points, lot) = match cut {
        Cut::Open => (0, 0u16, 0u16),
        Cut::Full { points, lot } => (1, points, lot),
        Cut::Shut => (2, 0, 0),
    };
    out.push(kind)?;
    out.extend_from_slice(&points.to_le_bytes())?;
    out.extend_from_slice(&lot.to_le_bytes())
}

impl Addressee<'_> {
    // Puts the letter that says a place in the list, or none, in place of what was in `out`.
    pub(crate) fn letter(&self, out: &mut Vec<u8>, place: Option<usize>) -> Result<(), AllocError> {
        out.clear();
        out.extend_from_slice(&word(self.number))?;
        out.extend_from_slice(&self.applicant.lot.to_le_bytes())?;
        out.push(byte(self.applicant.wishes.len()))?;
        for w in &self.applicant.wishes {
            out.push(byte(*w))?;
            let points = self.applicant.points_at(*w).unwrap_or(0);
            out.extend_from_slice(&points.to_le_bytes())?;
            push_cut(out, self.round.cut_at(*w))?;
        }
        out.push(place.map_or(NO_PLACE, byte))?;
        Ok(())
    }
}
