// What is written is read back.
ghost use Rattle.frame_read.specs.ReadBack.{FramesAreReadBack};
ghost use Rattle.frame_read.specs.WritableFrames.{GoodFramesAreReadBack};

/// Carries the law that `read_frames` gives back the frames of which `write_frames_with` wrote the rows. It does
/// nothing.
pub fn frames_are_read_back()
    ensures known { FramesAreReadBack }
    ensures good { GoodFramesAreReadBack }
{}
