//! Ranks of functions by a walk along their calls. Functions that reach one another have one rank,
//! and a function that is called has no higher rank than the one that calls it. Nothing is promised
//! of these ranks: whoever takes them asks.

use jz_tree::Seq;
use std::alloc::{AllocError, Global};

/// What the walk knows of a function.
#[derive(Clone, Copy)]
enum Mark {
    /// The walk was not there.
    Unseen,
    /// It has no rank yet. The lowest place among the open functions to which its calls are known
    /// to lead.
    Open(usize),
    Ranked(usize),
}

/// A function that the walk is in, its place among the open ones, and how many of its calls the
/// walk has followed.
#[derive(Clone, Copy)]
struct Visit {
    at: usize,
    place: usize,
    followed: usize,
}

impl Visit {
    fn next(self) -> Visit {
        Visit {
            at: self.at,
            place: self.place,
            followed: self.followed.saturating_add(1),
        }
    }
}

#[derive(Drop)]
struct Walk {
    marks: Vec<Mark>,
    inside: Vec<Visit>,
    /// The functions that the walk came to and that have no rank yet, in this order.
    open: Vec<usize>,
    /// The next rank.
    rank: usize,
    /// How many functions were tried as a beginning.
    tried: usize,
}

fn set_mark(marks: &mut Vec<Mark>, at: usize, mark: Mark) {
    if at < marks.len() {
        marks[at] = mark;
    }
}

impl Walk {
    fn mark(&self, at: usize) -> Mark {
        match self.marks.get(at) {
            // No such function: there is nothing to do.
            None => Mark::Ranked(0),
            Some(mark) => *mark,
        }
    }

    fn enter(&mut self, at: usize) -> Result<(), AllocError> {
        let place = self.open.len();
        set_mark(&mut self.marks, at, Mark::Open(place));
        self.open.push(at)?;
        self.inside.push(Visit {
            at,
            place,
            followed: 0,
        })?;
        Ok(())
    }

    fn begin(&mut self) -> Result<(), AllocError> {
        let at = self.tried;
        self.tried = at.saturating_add(1);
        if let Mark::Unseen = self.mark(at) {
            self.enter(at)?;
        }
        Ok(())
    }

    /// The calls of a function lead to the open one at that place.
    fn lower(&mut self, at: usize, place: usize) {
        if let Mark::Open(lowest) = self.mark(at) {
            set_mark(&mut self.marks, at, Mark::Open(lowest.min(place)));
        }
    }

    /// Enters a function that is called, or takes over what is known of it.
    fn follow(&mut self, visit: Visit, to: usize) -> Result<(), AllocError> {
        match self.mark(to) {
            Mark::Unseen => {
                self.inside.push(visit)?;
                self.enter(to)?;
            }
            Mark::Open(place) => {
                self.lower(visit.at, place);
                self.inside.push(visit.next())?;
            }
            Mark::Ranked(_) => self.inside.push(visit.next())?,
        }
        Ok(())
    }

    /// The open functions from that place on reach one another.
    fn close(&mut self, place: usize) {
        for _ in place..self.open.len() {
            if let Some(at) = self.open.pop() {
                set_mark(&mut self.marks, at, Mark::Ranked(self.rank));
            }
        }
        self.rank = self.rank.saturating_add(1);
    }

    fn leave(&mut self, visit: Visit) {
        if let Mark::Open(lowest) = self.mark(visit.at) {
            if lowest >= visit.place {
                self.close(visit.place);
            }
        }
    }

    /// Follows the next call, leaves a function, or tries the next beginning.
    fn step(&mut self, graph: &Seq<Seq<usize>>) -> Result<(), AllocError> {
        match self.inside.pop() {
            None => self.begin(),
            Some(visit) => match next_call(graph, visit) {
                None => {
                    self.leave(visit);
                    Ok(())
                }
                Some(to) => self.follow(visit, to),
            },
        }
    }
}

fn next_call(graph: &Seq<Seq<usize>>, visit: Visit) -> Option<usize> {
    match graph.get(visit.at) {
        None => None,
        Some(row) => row.get(visit.followed).copied(),
    }
}

/// One step for each beginning, each function that is entered by a call, each call and each end.
fn steps(graph: &Seq<Seq<usize>>) -> usize {
    let mut steps: usize = 0;
    for row in graph.as_slice() {
        steps = steps.saturating_add(row.len()).saturating_add(3);
    }
    steps
}

fn ranks_of(alloc: Global, marks: &[Mark]) -> Result<Vec<usize>, AllocError> {
    let mut ranks = Vec::new(alloc);
    for mark in marks {
        ranks.push(match mark {
            Mark::Ranked(rank) => *rank,
            _ => 0,
        })?;
    }
    Ok(ranks)
}

/// A rank for each function of a graph.
pub fn walked_ranks(alloc: Global, graph: &Seq<Seq<usize>>) -> Result<Vec<usize>, AllocError> {
    let mut walk = Walk {
        marks: vec![in alloc; Mark::Unseen; graph.len()]?,
        inside: Vec::new(alloc),
        open: Vec::new(alloc),
        rank: 0,
        tried: 0,
    };
    for _ in 0..steps(graph) {
        walk.step(graph)?;
    }
    ranks_of(alloc, walk.marks.as_slice())
}
