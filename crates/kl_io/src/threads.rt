//! Threads may share these objects and be handed them. That is proved here, since a thread's caller would
//! learn of a fault only far above.

use crate::{MemClock, MemSink, MemSource, MemWords, StdClock, StdSink, StdSource, StdWords};

fn shared<T: Send + Sync>(_value: &T) {}

fn memory_is_shared(source: &MemSource, sink: &MemSink, words: &MemWords, clock: &MemClock) {
    shared(source);
    shared(sink);
    shared(words);
    shared(clock);
}

fn streams_are_shared<R: Send + Sync, W: Send + Sync>(source: &StdSource<R>, sink: &StdSink<W>) {
    shared(source);
    shared(sink);
}

fn runtimes_are_shared<R: Send + Sync, C: Send + Sync>(words: &StdWords<R>, clock: &StdClock<C>) {
    shared(words);
    shared(clock);
}
