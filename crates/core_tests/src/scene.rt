//! What the lines so far made, and what a further one does.
use crate::below::try_below;
use crate::boards::{Boards, boards_of, compare, take_apart};
use crate::compare::Kinds;
use crate::histories::History;
use crate::replays::write_replayed;
use crate::words::size;
use rt_base::TxId;
use std::alloc::Global;
use test_sets::{Call, Told, call_of, declared, entry_of, generated};
use txn_set::CompiledSet;

/// The declarations so far, the set of the last ones that were whole, its boards, a history of it, whether the lines of entries
/// tell that history, and the kinds of answers of boards that were compared.
#[derive(Drop)]
pub struct Scene {
    head: String,
    told: Option<Told>,
    boards: Option<Boards>,
    history: History,
    tells: bool,
    kinds: Kinds,
}

// A room and a seed.
fn room_and_seed(words: &str) -> Option<(usize, u64)> {
    let (room, seed) = words.split_once(' ')?;
    Some((size(room)?, seed.parse::<u64>().ok()?))
}

fn generated_set(alloc: Global, n: &str) -> Option<CompiledSet> {
    generated(alloc, n.parse::<u32>().ok()?).ok()?
}

impl Scene {
    pub fn new(alloc: Global) -> Scene {
        Scene {
            head: String::new(alloc),
            told: None,
            boards: None,
            history: History::new(alloc),
            tells: false,
            kinds: Kinds::new(alloc),
        }
    }

    // Takes a line of a declaration; the mode line is the last of them.
    fn declare(&mut self, alloc: Global, word: &str, line: &str) -> Option<()> {
        if word == "rtdb" {
            self.head.clear();
        }
        self.head.push_str(line).ok()?;
        self.head.push_str("\n").ok()?;
        if word == "mode" {
            let told = declared(alloc, self.head.as_str())?;
            drop(self.told.replace(told));
        }
        Some(())
    }

    // The line of an entry is the next of the history, or else its call is made on the boards.
    fn take_entry(&mut self, line: &str, said: &mut String) -> Option<()> {
        let entry = entry_of(&self.told.as_ref()?.names, line)?;
        if self.tells {
            self.history.take(entry)
        } else {
            self.boards.as_mut()?.call(call_of(entry), said)
        }
    }

    // Makes new boards of this room. The lines of entries are calls on them.
    fn open(&mut self, alloc: Global, room: usize) -> Option<()> {
        let boards = boards_of(alloc, &self.told.as_ref()?.set, room)?;
        drop(self.boards.replace(boards));
        self.tells = false;
        Some(())
    }

    // Does what a line says on the boards.
    fn on_boards(
        &mut self,
        alloc: Global,
        word: &str,
        rest: &str,
        said: &mut String,
    ) -> Option<()> {
        let boards = self.boards.as_mut()?;
        match word {
            "next" => boards.call(Call::PlanNext(TxId(rest.parse::<u32>().ok()?)), said),
            "look" => boards.look(said),
            "drain" => boards.drain(alloc, size(rest)?, said),
            _ => boards.discard(said),
        }
    }

    // Does what a line says with the history. The lines of entries tell it.
    fn on_history(&mut self, alloc: Global, word: &str, rest: &str) -> Option<()> {
        self.tells = true;
        match word {
            "history" => {
                self.history.begin();
                Some(())
            }
            "keep" => self.history.keep(alloc),
            "front" => self.history.front(alloc, size(rest)?),
            _ => self.history.go_on(alloc, size(rest)?),
        }
    }

    // Compares boards of the set that was declared.
    fn compare_declared(&mut self, alloc: Global, words: &str, said: &mut String) -> Option<()> {
        let (room, seed) = room_and_seed(words)?;
        let told = self.told.as_ref()?;
        compare(alloc, &told.set, room, seed, &mut self.kinds, said)
    }

    // Compares boards of the generated set of so many transactions.
    fn compare_generated(&mut self, alloc: Global, words: &str, said: &mut String) -> Option<()> {
        let (n, words) = words.split_once(' ')?;
        let (room, seed) = room_and_seed(words)?;
        let set = generated_set(alloc, n)?;
        let compared = compare(alloc, &set, room, seed, &mut self.kinds, said);
        drop(set);
        compared
    }

    // Writes the kinds of answers.
    fn write_kinds(&self, said: &mut String) -> Option<()> {
        for kind in self.kinds.iter() {
            write!(said, "\n    {}", kind.as_str()).ok()?;
        }
        Some(())
    }

    // Replays the history, as far as it is told.
    fn replay(&self, alloc: Global, said: &mut String) -> Option<()> {
        let told = self.told.as_ref()?;
        write_replayed(alloc, &told.set, self.history.entries(), said)
    }
}

/// Does what a line says, and writes what comes of it, if anything. None where the line is none, cannot be followed, or memory
/// ran out.
pub fn follow(alloc: Global, scene: &mut Scene, line: &str, said: &mut String) -> Option<()> {
    let (word, rest) = line.split_once(' ').unwrap_or((line, ""));
    match word {
        "rtdb" | "item" | "txn" | "together" | "mode" => scene.declare(alloc, word, line),
        "plan" | "step" | "block" | "idle" => scene.take_entry(line, said),
        "boards" => scene.open(alloc, size(rest)?),
        "next" | "look" | "drain" | "discard" => scene.on_boards(alloc, word, rest, said),
        "parts" => take_apart(scene.boards.take()?, said),
        "history" | "keep" | "front" | "from" => scene.on_history(alloc, word, rest),
        "replay" => scene.replay(alloc, said),
        "compare" => scene.compare_declared(alloc, rest, said),
        "generated" => scene.compare_generated(alloc, rest, said),
        "kinds" => scene.write_kinds(said),
        _ => try_below(alloc, word, rest, said),
    }
}
