// The status that the program ends with. It is a number and no enum, since `kept` and `output::end` promise their
// answers for every number, and who is told it, in a report for machines, is told a number.
ghost use Rattle.desk.specs.Statuses.{Due};

// The status that is due if what was to be told could be written, and else 2. Whoever writes says that by a bool: why
// it could not be done was told where it was found, and nothing else is ever asked of it.
pub fn kept(due: u32, written: bool) -> u32
    ensures { Due due result }
{
    if written { due } else { 2 }
}
