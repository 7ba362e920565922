// A system as a call reads it before it changes anything: control and the three memories, of any bytes and lengths. The calls
// themselves take the memories one by one, as C lends them: by & or &mut, so that a call's type says which it only reads. What names the
// row that stops a call is lent a System by &: passed by value, each step copied it by a call of memcpy. Load's walk has a copy of its own.
use crate::control::Control;

#[derive(Clone, Copy)]
pub struct System<'a> {
    pub control: Control,
    pub library: &'a [u8],
    pub log: &'a [u8],
    pub sessions: &'a [u8],
}
