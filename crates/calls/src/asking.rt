// Any call from begin to abort as a value.

// A call, but for the value that a write stores. Write: file, start, action. Read: file, time, action or 0. The others: action.
#[derive(Clone, Copy)]
pub enum Call {
    Begin,
    Write(u64, u64, u64),
    Read(u64, u64, u64),
    Test(u64),
    Commit(u64),
    Abort(u64),
}
