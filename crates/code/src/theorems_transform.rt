// What the transform is proved to be, as theorems.
ghost use Rattle.code.specs.Transform.{KeepsLength, UndoesItself};

// The transform keeps the length of what it is given.
pub fn transform_keeps_length()
    ensures { KeepsLength }
{}

// The transform undoes itself.
pub fn transform_undoes_itself()
    ensures { UndoesItself }
{}
