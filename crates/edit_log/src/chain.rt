// The test of the log's two chains: one pass along each, and a mark for each record, true until the record is met.
ghost use Rattle.std.specs.Prelude.{◌≡◌, true, false, ℕ, ◌+◌, ◌*◌, ◌-◌, ◌<◌, ◌≤◌, length, MatchOption};
ghost use Rattle.edit_log.specs.Log.{record_size, record_count, log_size, most_operations, records_of, chain, log_records, free_records};
ghost use Rattle.edit_log.specs.Chains.{free_form, chains_form};
ghost use Rattle.edit_log.specs.Values.{is_left, met, met_each, all_met, operation_left, links_of, size_from, size_of, log_test, free_test};

use crate::record;
use crate::record::Record;
use carts::{bytes, operation};

// The records, for an array with a mark for each.
const MARKS: usize = Record::COUNT as usize;

// The records that have still to be met. The log is no field: each method would have to promise that it stays.
#[derive(Drop)]
struct Unmet {
    left: [bool; MARKS],
}

impl Unmet {
    // Record r is met, if it is one of the 512 and has not been met before.
    fn meet(&mut self, r: u32) -> bool
        ensures { (result ≡ is_left self.old.left r) × (result ≡ true → self.new.left ≡ met self.old.left r) }
    {
        if !bytes::is_within(1, Record::COUNT, r) {
            return false;
        }
        let at = r as usize - 1;
        let here = self.left[at];
        self.left[at] = false;
        here
    }

    // Record r is met, and holds an operation. Its links are read by who goes on: with them in an Option the walk from record to record
    // took an eighth longer.
    fn meet_operation(&mut self, log: &[u8], r: u32) -> bool
        requires { length log.now ≡ log_size }
        ensures { (result ≡ operation_left log.now self.old.left r) × (result ≡ true → self.new.left ≡ met self.old.left r) }
    {
        if !self.meet(r) {
            return false;
        }
        operation::has_fields(record::record_at(log, r))
    }

    // The records of a transaction after its first are met, from record `next` on: how many it has with the first.
    fn meet_later(&mut self, log: &[u8], next: u32) -> Option<u32>
        requires { length log.now ≡ log_size }
        ensures { MatchOption result (size_from 1 log.now self.old.left next ≡ 0) (λ n. (1 ≤ n) × ((n ≡ size_from 1 log.now self.old.left next) × (self.new.left ≡ met_each self.old.left (chain most_operations log.now next)))) }
    {
        let mut r = next;
        for n in 1..=Record::MOST {
            if r == 0 {
                return Some(n);
            }
            if !self.meet_operation(log, r) {
                return None;
            }
            let links = Record::at(log, r);
            if links.next_transaction != 0 {
                return None;
            }
            r = links.next_operation;
        }
        None
    }

    // The records of the transaction at record first are met: how many it has.
    fn meet_transaction(&mut self, log: &[u8], first: u32) -> Option<u32>
        requires { length log.now ≡ log_size }
        ensures { MatchOption result (size_of log.now self.old.left first ≡ 0) (λ n. (1 ≤ n) × ((n ≡ size_of log.now self.old.left first) × (self.new.left ≡ met_each self.old.left (records_of log.now first)))) }
    {
        if !self.meet_operation(log, first) {
            return None;
        }
        let links = Record::at(log, first);
        self.meet_later(log, links.next_operation)
    }

    // The log's chain has exactly `transactions` transactions, from record `oldest` on, and `used` records, which are met.
    fn meet_log(&mut self, log: &[u8], transactions: u32, used: u32, oldest: u32) -> bool
        requires { length log.now ≡ log_size }
        ensures { (result ≡ log_test transactions log.now self.old.left oldest used) × (result ≡ true → self.new.left ≡ met_each self.old.left (log_records transactions log.now oldest)) }
    {
        let mut first = oldest;
        let mut room = used;
        for _ in 0..transactions {
            let Some(n) = self.meet_transaction(log, first) else {
                return false;
            };
            if room < n {
                return false;
            }
            room -= n;
            first = Record::at(log, first).next_transaction;
        }
        (first == 0) & (room == 0)
    }

    // The free chain goes from record first to record last and has the records that are not used, which are met.
    fn meet_free(&mut self, log: &[u8], used: u32, first: u32, last: u32) -> bool
        requires { (length log.now ≡ log_size) × (used ≤ record_count) }
        ensures { (result ≡ free_test log.now self.old.left (free_records log.now first) (record_count - used) 0 last) × (result ≡ true → self.new.left ≡ met_each self.old.left (free_records log.now first)) }
    {
        let mut r = first;
        let mut before: u32 = 0;
        for _ in used..Record::COUNT {
            if !self.meet(r) {
                return false;
            }
            if !is_free(record::record_at(log, r)) {
                return false;
            }
            before = r;
            r = Record::at(log, r).next_operation;
        }
        (r == 0) & (before == last)
    }

    // Every record has been met. No early exit, so that the loop vectorises.
    fn is_empty(&self) -> bool
        ensures { result ≡ all_met self.now.left }
    {
        let mut any = false;
        for left in &self.left {
            any |= *left;
        }
        !any
    }
}

// A record is zero but for bytes 12-13.
fn is_free(x: &[u8]) -> bool
    requires { length x.now ≡ record_size }
    ensures { result ≡ free_form x.now }
{
    bytes::all_zero(&x[0..Record::NEXT_OPERATION])
        & bytes::all_zero(&x[Record::NEXT_TRANSACTION..Record::SIZE])
}

// Every record is in exactly one of the two chains, and each chain ends.
pub fn are_chains(
    log: &[u8],
    transactions: u32,
    used: u32,
    oldest: u32,
    first: u32,
    last: u32,
) -> bool
    requires { length log.now ≡ log_size }
    ensures { result ≡ chains_form transactions log.now used oldest first last }
{
    if Record::COUNT < used {
        return false;
    }
    let mut unmet = Unmet {
        left: [true; MARKS],
    };
    unmet.meet_log(log, transactions, used, oldest)
        && unmet.meet_free(log, used, first, last)
        && unmet.is_empty()
}
