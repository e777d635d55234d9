// Laws of runs at checkpoints, of each code that means the graphs: functions that do nothing, whose contracts are theorems.

ghost use Rattle.code_maker.specs.Resumed.{CodesRunAlike, CodesAgreeBehind, CodesKeepPointers, CheckpointsEndTicks, CodesStandBehind};

use machine_code::runs_show_what_they_do;

/// From behind a checkpoint the code of a checked program runs alike over two memories that differ only in cells that are forgettable there:
/// the same events, ending and ticks, for every number of ticks; and right behind a later checkpoint the memories differ again only so.
pub fn codes_run_alike()
    ensures alike { CodesRunAlike }
    ensures memory { CodesAgreeBehind }
{}

/// Right behind each checkpoint of the run of a checked program's code from its start, the pointers in cells that are wanted there name what they may.
pub fn codes_keep_pointers()
    ensures law { CodesKeepPointers }
{}

/// Nothing is shown behind a checkpoint at the run's last tick: a run that passed a checkpoint last wants another tick right there, or ended without one.
pub fn checkpoints_end_ticks()
    ensures law { CheckpointsEndTicks }
{}

/// The run of a checked program's code from its start that passed a checkpoint last came to the place after it, with no call active.
pub fn codes_stand_behind()
    ensures law { CodesStandBehind }
{
    runs_show_what_they_do();
}
