// Counts of faults.
ghost use Rattle.std.specs.Prelude.{◌≡◌, ◌≤◌};
ghost use Rattle.dlk_desk.specs.Outside.{Rose, raised};

use crate::Failed;

/// One more, up to the greatest number.
pub(crate) fn raise(count: u64) -> u64
    ensures value { result ≡ raised count }
    ensures rose { Rose count result }
    ensures later { count ≤ result }
{
    count.saturating_add(1)
}

/// How often calls of a desk have failed: those that read, and those that write a file or print.
#[derive(Drop)]
pub(crate) struct Faults {
    pub(crate) reads: u64,
    /// Of writing a file or of printing. Each of these counts here, and in one of the next two.
    pub(crate) writes: u64,
    /// Of writing a file.
    pub(crate) files: u64,
    /// Of printing.
    pub(crate) prints: u64,
}

impl Faults {
    /// No faults so far.
    pub(crate) fn none() -> Faults
        ensures { result ≡ record { reads = 0; writes = 0; files = 0; prints = 0 } }
    {
        Faults {
            reads: 0,
            writes: 0,
            files: 0,
            prints: 0,
        }
    }

    /// Counts a fault of reading.
    pub(crate) fn of_reading(&mut self) -> Failed
        ensures same { self.new ≡ record self.old { reads = raised self.old.reads } }
        ensures rose { Rose self.old.reads self.new.reads }
        ensures later { self.old.reads ≤ self.new.reads }
    {
        self.reads = raise(self.reads);
        Failed
    }

    /// Counts a fault of writing a file.
    pub(crate) fn of_writing(&mut self) -> Failed
        ensures same { self.new ≡ record self.old { writes = raised self.old.writes; files = raised self.old.files } }
        ensures rose { Rose self.old.writes self.new.writes }
        ensures files_rose { Rose self.old.files self.new.files }
        ensures later { self.old.writes ≤ self.new.writes }
        ensures files_later { self.old.files ≤ self.new.files }
    {
        self.writes = raise(self.writes);
        self.files = raise(self.files);
        Failed
    }

    /// Counts a fault of printing.
    pub(crate) fn of_printing(&mut self) -> Failed
        ensures same { self.new ≡ record self.old { writes = raised self.old.writes; prints = raised self.old.prints } }
        ensures rose { Rose self.old.writes self.new.writes }
        ensures prints_rose { Rose self.old.prints self.new.prints }
        ensures later { self.old.writes ≤ self.new.writes }
        ensures prints_later { self.old.prints ≤ self.new.prints }
    {
        self.writes = raise(self.writes);
        self.prints = raise(self.prints);
        Failed
    }
}
