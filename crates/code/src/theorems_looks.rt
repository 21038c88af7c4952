// What holds of two ranked maps.
ghost use Rattle.code.specs.Looks.{FewLooks};

// Two ranked maps that agree on the marks of a span's first two and last two positions give it the same kind.
pub fn few_looks()
    ensures { FewLooks 2 }
{}
