//! Seats taken back from workers, and the closing of their plant.
ghost use Rattle.std.specs.Prelude.{◌≡◌, ◌+◌, ◌<◌, ◌≤◌, ◌++◌, ◌∷◌, [], length, vec_len, vec_capacity};
ghost use Rattle.turn_cell.specs.Turn.{total};
ghost use Rattle.shared_plant.specs.Seats.{AreOf, Closed};
ghost use Rattle.plant_run.specs.Deals.{team_of, seats_of, seats_in};

use board::Board;
use shared_plant::{Plant, Seat};
use step_script::Body;
use txn_threads::{Member, Worker};

// The seats of members, at the end of a list that has places for them, the last first.
fn leave<B: Board, Y: Body + Drop>(members: Vec<Member<B, Y>>, seats: &mut Vec<Seat<B>>)
    requires places { vec_len seats.old + vec_len members ≤ vec_capacity seats.old }
    ensures seats { seats.new.items ≡ seats.old.items ++ seats_of members.items }
    ensures len { vec_len seats.new ≡ vec_len seats.old + vec_len members }
    ensures places { vec_capacity seats.new ≡ vec_capacity seats.old }
{
    let mut members = members;
    for _ in 0..members.len() {
        let (seat, _body) = members.pop().unwrap().into_parts();
        seats.push_reserved(seat);
    }
}

// The seats of the members of all workers, the last first.
fn gather<B: Board, Y: Body + Drop>(workers: Vec<Worker<B, Y>>, seats: &mut Vec<Seat<B>>)
    requires places { vec_len seats.old + total (λ w. length (team_of w)) workers.items ≤ vec_capacity seats.old }
    ensures seats { seats.new.items ≡ seats.old.items ++ seats_in workers.items }
    ensures len { vec_len seats.new ≡ vec_len seats.old + total (λ w. length (team_of w)) workers.items }
    ensures places { vec_capacity seats.new ≡ vec_capacity seats.old }
{
    let mut workers = workers;
    for _ in 0..workers.len() {
        leave(workers.pop().unwrap().into_members(), seats);
    }
}

// Takes all seats back from the workers, the operator's last, and closes their plant.
pub(crate) fn shut<B: Board, Y: Body + Drop>(
    plant: Plant<B>,
    workers: Vec<Worker<B, Y>>,
    operator: Seat<B>,
    mut seats: Vec<Seat<B>>,
) -> B
    requires empty { seats.items ≡ [] }
    requires places { total (λ w. length (team_of w)) workers.items < vec_capacity seats }
    requires all { total (λ w. length (team_of w)) workers.items + 1 ≡ plant.seats }
    requires plant { AreOf plant (seats_in workers.items ++ operator ∷ []) }
    ensures { Closed B.stands B.set B.room B.first B.kept plant result (seats_in workers.items ++ operator ∷ []) }
{
    gather(workers, &mut seats);
    seats.push_reserved(operator);
    match plant.close(seats) {
        Ok(board) => board,
        Err(_) => unreachable!(),
    }
}
