// Where a process is: each created process is in exactly one place.
use machine::{Gate, Machine, Queue};
use shown::Line;

#[derive(Clone, Copy)]
pub(crate) enum Place {
    Running,
    Ready(u8),
    Gate(u8, u8),
    Cell(u8, u8),
    Clock,
    Device(u8),
    Bell,
    Ended,
}

impl Place {
    pub(crate) fn put(self, line: Line) -> Line {
        match self {
            Place::Running => line.put(b"running"),
            Place::Ready(c) => line.put(b"ready in class ").number(u64::from(c)),
            Place::Gate(g, k) => line
                .put(b"waiting at gate ")
                .number(u64::from(g))
                .put(b", place ")
                .number(u64::from(k)),
            Place::Cell(g, c) => line
                .put(b"delayed at gate ")
                .number(u64::from(g))
                .put(b", cell ")
                .number(u64::from(c)),
            Place::Clock => line.put(b"waiting for the clock"),
            Place::Device(d) => line.put(b"waiting for the ").device(d),
            Place::Bell => line.put(b"waiting for the bell"),
            Place::Ended => line.put(b"ended"),
        }
    }
}

// The place of q in a queue, from 1.
fn standing(queue: &Queue, q: u8) -> Option<u8> {
    let (k, _) = (1..=queue.len).zip(&queue.at).find(|(_, p)| **p == q)?;
    Some(k)
}

fn at_gate(g: u8, gate: &Gate, q: u8) -> Option<Place> {
    if let Some(k) = standing(&gate.queue, q) {
        return Some(Place::Gate(g, k));
    }
    let (c, _) = (0..).zip(&gate.cells).find(|(_, p)| **p == q)?;
    Some(Place::Cell(g, c))
}

// Waiting for the clock, for the bell, for a device, or at a gate.
fn waiting(m: &Machine, q: u8) -> Option<Place> {
    if standing(&m.clock, q).is_some() {
        return Some(Place::Clock);
    }
    if standing(&m.bell, q).is_some() {
        return Some(Place::Bell);
    }
    if let Some((d, _)) = (0..).zip(&m.devices).find(|(_, x)| x.process == q) {
        return Some(Place::Device(d));
    }
    (0..)
        .zip(&m.gates)
        .find_map(|(g, gate)| at_gate(g, gate, q))
}

pub(crate) fn place_of(m: &Machine, q: u8, ended: bool) -> Option<Place> {
    if ended {
        return Some(Place::Ended);
    }
    if m.running == q {
        return Some(Place::Running);
    }
    for (class, queue) in (0..).zip(&m.ready) {
        if standing(queue, q).is_some() {
            return Some(Place::Ready(class));
        }
    }
    waiting(m, q)
}
