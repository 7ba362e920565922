// The memories that are lent for a line's call.

// The system's library, log and sessions, of any lengths; the van's copy; the store, in which the requests of reads that wait are kept;
// the bytes that belong to the line; and the block of a read. A call that changes one and reads another borrows each of them first:
// the check has no rule for a field that is read while another is lent.
#[derive(Drop)]
pub struct Lent<'a> {
    pub library: &'a mut [u8],
    pub log: &'a mut [u8],
    pub sessions: &'a mut [u8],
    pub copy: &'a mut [u8],
    pub store: &'a [u8],
    pub payload: &'a [u8],
    pub block: &'a mut [u8],
}
