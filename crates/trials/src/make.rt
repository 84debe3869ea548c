// Random small rounds, of two shapes. Open ones: few points to choose from, so that many are equal, and any number of places.
// Crossed ones: one place each, long lists, and workshops that like those best who like them least, so that there are several
// stable assignments. Lots lie on both sides of a byte's end.
use crate::case::{APPLICANTS, Applicant, Case};
use crate::draw::Draw;
use std::alloc::{AllocError, Global};

// The places of a workshop, of which one is drawn.
const PLACES: [usize; 10] = [0, 2, 2, 3, 1, 1, 1, 1, 1, 1];

const LOTS: [[u16; APPLICANTS]; 3] = [
    [1, 2, 3, 4, 5],
    [252, 254, 256, 258, 260],
    [0, 16383, 32766, 49149, 65532],
];

// What the applicants of an open round are given, by how many of them are given as much as another.
#[derive(Clone, Copy)]
enum Way {
    All,
    Most,
    Many,
    Few,
}

const WAYS: [Way; 4] = [Way::All, Way::Most, Way::Many, Way::Few];

// In a random order: each changes places with another, or with itself.
fn draw_lots(draw: &mut Draw) -> [u16; APPLICANTS] {
    let mut lots = LOTS[draw.below(LOTS.len())];
    for a in 0..APPLICANTS {
        let b = draw.below(APPLICANTS);
        lots.swap(a, b);
    }
    lots
}

// Another list in place of what was in `wishes`: as many workshops as come up in the tries, none twice.
pub(crate) fn draw_wishes(
    wishes: &mut Vec<usize>,
    workshops: usize,
    tries: usize,
    draw: &mut Draw,
) -> Result<(), AllocError> {
    wishes.clear();
    for _ in 0..tries {
        let w = draw.below(workshops);
        if !wishes.contains(&w) {
            wishes.push(w)?;
        }
    }
    Ok(())
}

// What an applicant is given at a workshop; none for no row.
fn draw_points(way: Way, draw: &mut Draw) -> Option<u16> {
    if draw.below(7) == 0 {
        return None;
    }
    Some(match way {
        Way::All => 7,
        Way::Most => 1 + draw.below(2) as u16,
        Way::Many => 254 + draw.below(4) as u16,
        Way::Few => 65535 - draw.below(1000) as u16,
    })
}

fn open_case(
    alloc: Global,
    applicants: usize,
    workshops: usize,
    draw: &mut Draw,
) -> Result<Case, AllocError> {
    let mut case = Case {
        applicants: Vec::new(alloc),
        places: (0..workshops)
            .map(|_| PLACES[draw.below(PLACES.len())])
            .collect(alloc)?,
    };
    let way = WAYS[draw.below(WAYS.len())];
    for _ in 0..applicants {
        let tries = draw.below(9);
        let mut wishes = Vec::new(alloc);
        draw_wishes(&mut wishes, workshops, tries, draw)?;
        case.applicants.push(Applicant {
            // drawn when the applicants are there
            lot: 0,
            wishes,
            points: (0..workshops)
                .map(|_| draw_points(way, draw))
                .collect(alloc)?,
        })?;
    }
    Ok(case)
}

// The later the place in the list, the more points; now and then fewer by one.
fn crossed_points(place: Option<usize>, draw: &mut Draw) -> u16 {
    let later = place.unwrap_or(4).min(4) as u16;
    2 + 2 * later - draw.below(3) as u16 % 2
}

fn crossed_case(alloc: Global, size: usize, draw: &mut Draw) -> Result<Case, AllocError> {
    let mut case = Case {
        applicants: Vec::new(alloc),
        places: vec![in alloc; 1; size]?,
    };
    for _ in 0..size {
        let mut applicant = Applicant {
            // drawn when the applicants are there
            lot: 0,
            wishes: Vec::new(alloc),
            points: Vec::new(alloc),
        };
        draw_wishes(&mut applicant.wishes, size, 10, draw)?;
        applicant.points = (0..size)
            .map(|w| Some(crossed_points(applicant.place_of(w), draw)))
            .collect(alloc)?;
        case.applicants.push(applicant)?;
    }
    Ok(case)
}

pub(crate) fn draw_case(alloc: Global, draw: &mut Draw) -> Result<Case, AllocError> {
    let crossed = draw.below(3) == 0;
    let applicants = draw.below(APPLICANTS + 1).max(draw.below(APPLICANTS + 1));
    let workshops = draw.below(4).max(draw.below(4)).min(3) + 1;
    let mut case = if crossed {
        crossed_case(alloc, workshops, draw)?
    } else {
        open_case(alloc, applicants, workshops, draw)?
    };
    let lots = draw_lots(draw);
    for (applicant, lot) in case.applicants.iter_mut().zip(&lots) {
        applicant.lot = *lot;
    }
    Ok(case)
}

// The lots the other way round, whose highest was drawn first.
pub(crate) fn turn_lots(case: &mut Case) {
    for applicant in case.applicants.iter_mut() {
        applicant.lot = u16::MAX - applicant.lot;
    }
}
