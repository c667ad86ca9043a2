// How a plan stands.
ghost use Rattle.std.specs.Prelude.{◌≡◌};
ghost use Rattle.protocol.specs.Report.{end_number};
ghost use Rattle.journal.specs.Ends.{end_as};

#[derive(Clone, Copy, PartialEq, Eq)]
pub enum End {
    UnderWay = 0,
    Finished = 1,
    Stuck = 2,
}

// The report's first byte.
impl From<End> for u8 {
    ghost from_gives = { λ end byte. byte ≡ end_number (end_as end) };

    fn from(end: End) -> u8 {
        end as u8
    }
}
