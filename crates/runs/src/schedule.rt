// The schedule beside a run.
ghost use Rattle.runs.specs.Schedule.{ReadsSchedule};

// At the end of the opening, and of each round, what is read are the caches of the schedule that the counts are of.
pub fn reads_schedule_stands()
    ensures { ReadsSchedule }
{}
