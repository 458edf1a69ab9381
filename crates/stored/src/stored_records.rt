// What a record of the stored list has: the buffers of a call, and the answer of a call. A buffer is made once, and filled anew for
// each record. Both are compared with what stands in the list.

pub mod answers;
pub mod tables;
