// A workshop's bench: the best of those who asked, as many as it has places.
#![tactic(auto)]

ghost use Rattle.std.specs.Prelude.{◌≡◌, ◌+◌, ◌<◌, length, if◌then◌else◌, nat_eq, nat_lt, MatchOption};
ghost use Rattle.std.specs.List.{suffix_len};
ghost use Rattle.codec.specs.Rounds.{tables_of};
ghost use Rattle.points.specs.Standing.{row_worth, no_row};
ghost use Rattle.bench.specs.Row.{taken_in, left_out, answer_of};
ghost use Rattle.bench.specs.Best.{KeepsBest, AllAsks, AnyOrder, SeatsTaken, UpOrDown};
ghost use Rattle.bench.specs.declared.Answer.TheVariants.{Kept, Displaced};

use codec::Round;

// What a bench answers a row that asks for a seat.
#[derive(Clone, Copy, PartialEq, Eq, Debug)]
pub enum Answer {
    // it has a seat that was empty
    Kept,
    // it has a seat, and this row has lost its own
    Displaced(u32),
    TurnedDown,
}

// How many rows at the end of these seats go behind `row`, one after the other.
fn behind(seats: &[u32], round: &Round, row: u32) -> usize
    ensures { result ≡ suffix_len (λ other. nat_lt (row_worth (tables_of round.now) other) (row_worth (tables_of round.now) row)) seats.now }
{
    seats
        .iter()
        .rev()
        .take_while(|other| points::row_ahead(round, row, **other))
        .count()
}

// The first seat from which on `row` goes ahead of everybody; none if it does not go ahead of the last, whom most askers stay behind,
// so that one is looked at alone first, and not again with those in front of it.
fn seat_for(bench: &[u32], round: &Round, row: u32) -> Option<usize>
    ensures { let behind = suffix_len (λ other. nat_lt (row_worth (tables_of round.now) other) (row_worth (tables_of round.now) row)) bench.now in MatchOption result (behind ≡ 0) (λ seat. (0 < behind) × (seat + behind ≡ length bench.now)) }
{
    let [front @ .., last] = bench else {
        return None;
    };
    if !points::row_ahead(round, row, *last) {
        return None;
    }
    Some(front.len() - behind(front, round, row))
}

// A row asks for a seat on a bench, whose seats hold rows, best first, and `u32::MAX` where they are empty, since they are numbers of a
// lent slice. The row in the last seat is looked at first: if it stays ahead, the asker is turned down. Else it is out, and those behind
// the asker move down by one.
pub fn ask(bench: &mut [u32], round: &Round, row: u32) -> Answer
    ensures bench { bench.new ≡ taken_in (row_worth (tables_of round.now)) row bench.old }
    ensures answer { result ≡ answer_of row (left_out (row_worth (tables_of round.now)) row bench.old) }
    ensures best { KeepsBest (row_worth (tables_of round.now)) row bench.old bench.new }
{
    let Some(seat) = seat_for(bench, round, row) else {
        return Answer::TurnedDown;
    };
    let last_seat = bench.len() - 1;
    let last = bench[last_seat];
    bench.copy_within(seat..last_seat, seat + 1);
    bench[seat] = row;
    seated(last)
}

// What somebody is told who has a seat now, when this row or nobody had to leave.
fn seated(last: u32) -> Answer
    ensures { result ≡ (if nat_eq last no_row then Kept else Displaced last) }
{
    match last {
        u32::MAX => Answer::Kept,
        row => Answer::Displaced(row),
    }
}

// What holds of benches after any row of asks, each theorem on the contract of a function.

// The bench holds the best of those who asked and have points, as many as it has places.
pub fn all_asks()
    ensures { AllAsks }
{}

// The order of asking does not matter.
pub fn any_order()
    ensures { AnyOrder }
{}

// As many seats are taken as there are askers with points, up to the number of places.
pub fn seats_taken()
    ensures { SeatsTaken }
{}

// Asking up from the last seat is asking down from the first.
pub fn up_or_down()
    ensures { UpOrDown }
{}
