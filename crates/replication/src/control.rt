// Control: the counts that a caller passes by value and is handed back.
ghost use Rattle.std.specs.Prelude.{◌≡◌, cond, ◌+◌, ◌-◌, ◌≤◌, leb, eqb, length};
ghost use Rattle.carts.specs.Bytes.{every};
ghost use Rattle.edit_log.specs.Log.{record_count};
ghost use Rattle.replication.specs.Memory.{session_count, studio_count, most_commits, studio_of, nth};
ghost use Rattle.replication.specs.Log.{log_count};
ghost use Rattle.replication.specs.Layout.{counts_form};
ghost use Rattle.replication.specs.Calls.{control_of, committed, with_log, with_sent, with_applied, with_studio};

use edit_log::free::Freed;

// Sizes are document 01's. Any value may stand in any field: each has its answer. C reads the fields, so a 0 stays a 0 (no studio, no record).
#[repr(C)]
#[derive(Clone, Copy)]
pub struct Control {
    pub studios: u32,
    pub session_studios: [u32; 16],
    pub used: u32,
    pub commits: u32,
    pub sent: [u32; 4],
    pub applied: [u32; 4],
    pub retired: u32,
    pub oldest: u32,
    pub free_first: u32,
    pub free_last: u32,
}

impl Control {
    pub const STUDIOS: u32 = 4;

    // The head end's copy and the studios'.
    pub const COPIES: u32 = 5;

    // The copy of the retired transactions, placed last: its index, counted from 0, and its place.
    pub const SIXTH: u32 = 5;

    pub const SIXTH_AT: usize = 51200;

    pub const LIBRARY_SIZE: usize = 61440;

    pub const COMMITS_MOST: u32 = 65535;

    pub const SESSIONS: u32 = 16;

    pub const WINDOW: u32 = 32;

    // Control of a fresh system, with its free chain: every count is zero.
    pub fn new(studios: u32, sessions: [u32; 16], free_first: u32, free_last: u32) -> Control
        ensures { result ≡ control_of studios sessions free_first free_last }
    {
        Control {
            studios,
            session_studios: sessions,
            used: 0,
            commits: 0,
            sent: [0; 4],
            applied: [0; 4],
            retired: 0,
            oldest: 0,
            free_first,
            free_last,
        }
    }

    // The studio of a session; 0 for an unused one.
    pub fn studio_of(self, session: u32) -> u32
        requires { (1 ≤ session) × (session ≤ session_count) }
        ensures { result ≡ studio_of self session }
    {
        let j = session as usize - 1;
        self.session_studios[j]
    }

    // The transactions in the log.
    pub fn log_count(self) -> u32
        requires { self.retired ≤ self.commits }
        ensures { result ≡ log_count self }
    {
        self.commits - self.retired
    }

    // Each session's studio is one of the system's, or 0.
    pub fn has_studios(self) -> bool
        ensures { result ≡ every (λ i. leb i self.studios) self.session_studios }
    {
        let sessions = self.session_studios;
        are_at_most(&sessions, self.studios)
    }

    // What was sent to studio i.
    pub fn sent_to(self, i: u32) -> u32
        requires { (1 ≤ i) × (i ≤ studio_count) }
        ensures { result ≡ nth self.sent i }
    {
        let j = i as usize - 1;
        self.sent[j]
    }

    // What studio i has applied.
    pub fn applied_by(self, i: u32) -> u32
        requires { (1 ≤ i) × (i ≤ studio_count) }
        ensures { result ≡ nth self.applied i }
    {
        let j = i as usize - 1;
        self.applied[j]
    }

    // The counts of studio i are of the layout.
    pub fn has_counts(self, i: u32) -> bool
        requires { (1 ≤ i) × (i ≤ studio_count) }
        ensures { result ≡ counts_form self i }
    {
        let sent = self.sent_to(i);
        let applied = self.applied_by(i);
        if self.studios < i {
            return (sent == 0) & (applied == 0);
        }
        if sent < applied {
            return false;
        }
        (sent <= self.commits) & (sent - applied <= Control::WINDOW) & (self.retired <= applied)
    }

    // Control with another number sent to studio i. This and the two below differ in a field, and in no type or size.
    pub fn with_sent(self, i: u32, n: u32) -> Control
        requires { (1 ≤ i) × (i ≤ studio_count) }
        ensures { result ≡ with_sent self i n }
    {
        let j = i as usize - 1;
        let mut next = self;
        next.sent[j] = n;
        next
    }

    // Control with another number applied by studio i.
    pub fn with_applied(self, i: u32, n: u32) -> Control
        requires { (1 ≤ i) × (i ≤ studio_count) }
        ensures { result ≡ with_applied self i n }
    {
        let j = i as usize - 1;
        let mut next = self;
        next.applied[j] = n;
        next
    }

    // Control with a session at another studio.
    pub fn with_studio(self, session: u32, studio: u32) -> Control
        requires { (1 ≤ session) × (session ≤ session_count) }
        ensures { result ≡ with_studio self session studio }
    {
        let j = session as usize - 1;
        let mut next = self;
        next.session_studios[j] = studio;
        next
    }

    // The first record of the oldest transaction after a commit: the first free record where there was none.
    fn oldest_then(self) -> u32
        requires { self.retired ≤ self.commits }
        ensures { result ≡ cond (eqb (log_count self) 0) self.free_first self.oldest }
    {
        if self.commits == self.retired {
            return self.free_first;
        }
        self.oldest
    }

    // Control after a commit of n operations; `next` is the first record that is still free, 0 for none.
    pub fn committed(self, n: u32, next: u32) -> Control
        requires { ((self.used + n ≤ record_count) × (self.commits + 1 ≤ most_commits)) × (self.retired ≤ self.commits) }
        ensures { result ≡ committed self n next }
    {
        let mut left = self;
        left.used = self.used + n;
        left.commits = self.commits + 1;
        left.oldest = self.oldest_then();
        left.free_first = next;
        left.free_last = if next == 0 { 0 } else { self.free_last };
        left
    }

    // Control after the oldest transaction is retired; `next` is the first record of the one after it, and `freed` tells of its records.
    pub fn after_retire(self, next: u32, freed: Freed) -> Control
        requires { (freed.count ≤ self.used) × (self.retired + 1 ≤ most_commits) }
        ensures { result ≡ with_log self (self.used - freed.count) self.commits (self.retired + 1) next (cond (eqb self.free_first 0) self.oldest self.free_first) freed.last }
    {
        let mut left = self;
        left.used = self.used - freed.count;
        left.retired = self.retired + 1;
        left.oldest = next;
        left.free_first = if self.free_first == 0 {
            self.oldest
        } else {
            self.free_first
        };
        left.free_last = freed.last;
        left
    }
}

// Each number is at most the given one.
fn are_at_most(numbers: &[u32], most: u32) -> bool
    requires { length numbers.now ≤ session_count }
    ensures { result ≡ every (λ i. leb i most) numbers.now }
{
    let mut ok = true;
    for n in numbers {
        ok &= *n <= most;
    }
    ok
}
