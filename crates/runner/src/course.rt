// The course of a run: turns of instructions, with a tick of the clock after every so many, up to its end.
use crate::options::Options;
use image::Refusal;
use machine::Machine;
use run::{Ended, Offered};
use std::io;

// The ticks that are given, in all, while nobody runs and somebody waits for the clock: 100 seconds.
pub(crate) const IDLE: u32 = 100000;

// How a run ends: a refusal is one of six ends, so this is no Result.
#[derive(Clone, Copy)]
pub(crate) enum End {
    Budget,
    Idle,
    Waited,
    Started(u8),
    Stopped,
    Refused(Refusal),
}

// A machine with all that it is lent, and its image's name.
#[derive(Drop)]
pub(crate) struct Bench<'a> {
    pub(crate) path: &'a [u8],
    pub(crate) machine: Machine,
    pub(crate) code: &'a [u16],
    pub(crate) common: [u16; Machine::COMMON],
    pub(crate) private: [u16; Machine::PRIVATE],
}

impl Bench<'_> {
    // The record of a device that has started.
    pub(crate) fn record(&self, d: u8) -> &[u16] {
        kernel::record(self.machine, d, &self.common, &self.private)
    }

    // A device that has started is done at once, with status 0 and argument 0.
    fn serve(&mut self, rt: &impl Print, d: u8) -> io::Result<()> {
        self.say_written(rt, d)?;
        let done = run::done(
            self.machine,
            u16::from(d),
            0,
            0,
            &mut self.common,
            &mut self.private,
        );
        self.machine = done.machine;
        Ok(())
    }

    // A turn's instructions, compiled by themselves: within `follow` the run's loop keeps its registers in memory.
    #[inline(never)]
    fn turn(&mut self, quota: u32) -> Offered {
        run::run(
            self.machine,
            self.code,
            quota,
            &mut self.common,
            &mut self.private,
        )
    }

    // The end, where a turn is the last. Who idles goes on: the next turn, which then counts nothing, sees to the clock.
    fn end_of(
        &mut self,
        rt: &impl Print,
        reply: Result<Ended, Refusal>,
        serve: bool,
    ) -> io::Result<Option<End>> {
        match reply {
            Ok(Ended::Onward | Ended::Idle) => Ok(None),
            Ok(Ended::Starting(d)) if serve => {
                self.serve(rt, d)?;
                Ok(None)
            }
            Ok(Ended::Starting(d)) => Ok(Some(End::Started(d))),
            Ok(Ended::Stopped) => Ok(Some(End::Stopped)),
            Err(refusal) => Ok(Some(End::Refused(refusal))),
        }
    }

    // How the run ends, and after how many instructions. A turn goes to the next tick and counts no more than that; one that counts
    // nothing finds nobody running, and the clock ticks on while somebody waits for it. A machine that goes on refuses no tick.
    pub(crate) fn follow(&mut self, rt: &impl Print, o: Options) -> io::Result<(End, u32)> {
        let mut count = 0;
        let mut next = o.tick;
        let mut idle = IDLE;
        // a `while`: a turn counts as many as it will
        while count < o.budget {
            let quota = next.min(o.budget - count);
            let turn = self.turn(quota);
            let n = turn.count.min(quota);
            self.machine = turn.machine;
            count += n;
            next -= n;
            if let Some(end) = self.end_of(rt, turn.reply, o.serve)? {
                return Ok((end, count));
            }
            if n == 0 {
                if self.machine.clock.len == 0 {
                    return Ok((End::Idle, count));
                }
                if idle == 0 {
                    return Ok((End::Waited, count));
                }
                idle -= 1;
                next = 0;
            }
            if next == 0 {
                self.machine = run::tick(self.machine).machine;
                next = o.tick;
            }
        }
        Ok((End::Budget, count))
    }
}
