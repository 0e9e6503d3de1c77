// What kind of writer it is, and its limits: as C sees them.
ghost use Rattle.std.specs.Prelude.{◌≡◌, ◌-◌};
ghost use Rattle.writer_send_buffer.specs.Flow.{allowed, limits_counted};

#[repr(C)]
#[derive(Clone, Copy, Debug, Default, PartialEq, Eq)]
pub struct Kind {
    pub reliable: bool,
    pub builtin: bool,
    pub volatile: bool,
}

#[repr(C)]
#[derive(Clone, Copy, Debug, Default, PartialEq, Eq)]
pub struct Limits {
    pub window: u64,
    pub backlog: u64,
    pub retain: u64,
    pub slots: u64,
    pub slot_bytes: u64,
}

impl Limits {
    pub const MOST_WINDOW: u64 = 2147483647;

    pub const MOST_BACKLOG: u64 = 2147483647;

    pub const MOST_SLOTS: u64 = 256;

    pub const MOST_SLOT_BYTES: u64 = 8192;

    // Whether they are within the table, none 0.
    #[tactic(auto, using(crate::proofs::Between::between, sets::proofs::Bools::and_assoc))]
    pub fn are_allowed(self) -> bool
        ensures { result ≡ allowed self }
    {
        (1..=Limits::MOST_WINDOW).contains(&self.window)
            & (1..=Limits::MOST_BACKLOG).contains(&self.backlog)
            & (1..=self.slots).contains(&self.retain)
            & (1..=Limits::MOST_SLOTS).contains(&self.slots)
            & (1..=Limits::MOST_SLOT_BYTES).contains(&self.slot_bytes)
    }

    // 0 counts as 1, for the window, the backlog and retain.
    pub fn with_0_as_1(self) -> Limits
        ensures { result ≡ limits_counted self }
    {
        Limits {
            window: self.window.max(1),
            backlog: self.backlog.max(1),
            retain: self.retain.max(1),
            ..self
        }
    }
}
