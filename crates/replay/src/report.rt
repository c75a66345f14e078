// What is counted, and what is printed.
use calls::Call;
use replaying::Trouble;
use std::fmt;

// The calls that did as recorded, by operation.
#[derive(Clone, Copy, Default)]
pub struct Tally {
    start: u64,
    open: u64,
    step: u64,
    close: u64,
    view: u64,
}

impl Tally {
    // One call more.
    pub fn count(&mut self, call: Call) {
        let calls = match call {
            Call::Start { .. } => &mut self.start,
            Call::Open => &mut self.open,
            Call::Step => &mut self.step,
            Call::Close => &mut self.close,
            Call::View { .. } => &mut self.view,
            Call::NoCall => return,
        };
        *calls = calls.wrapping_add(1);
    }

    fn total(&self) -> u64 {
        self.start
            .wrapping_add(self.open)
            .wrapping_add(self.step)
            .wrapping_add(self.close)
            .wrapping_add(self.view)
    }
}

impl fmt::Display for Tally {
    fn fmt<W: fmt::Write>(&self, f: &mut fmt::Formatter<W>) -> fmt::Result {
        let Tally {
            start,
            open,
            step,
            close,
            view,
        } = self;
        write!(
            f,
            "{} calls compared, 0 differ: start {start}, open {open}, step {step}, close {close}, view {view}",
            self.total()
        )
    }
}

// Says how a list's run ended, with the number of the record, counted from 0, where it stopped short: whether it came
// to the list's end.
pub fn say_run(rt: &impl Print, name: &str, tally: Tally, end: Result<(), Trouble>) -> bool {
    let said = match end {
        Ok(()) => println!(rt; "{name}: {tally}"),
        Err(trouble) => println!(rt; "{name}: record {} {trouble}", tally.total()),
    };
    let _ = said;
    end.is_ok()
}
