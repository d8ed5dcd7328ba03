//! Laws of frames: each function does nothing, and its contract is the law.

ghost use Rattle.pgpipe_frames.specs.Laws.{OneFraming};

/// Two readings of the same bytes differ only in how far they go.
pub fn one_framing()
    ensures { OneFraming }
{}
