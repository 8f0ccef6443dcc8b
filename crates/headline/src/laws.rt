// The promise of the program's calls. The functions do no work: their contracts are the laws.
ghost use Rattle.std.specs.Prelude.{ℕ, ℤ, List, [], ◌∷◌, ◌++◌};
ghost use Rattle.disk_model.specs.Disk.{Files, IsImage};
ghost use Rattle.logparser_cli.specs.Meaning.{meaning};
ghost use Rattle.reports.specs.declared.status.Status.{Status};
ghost use Rattle.run_model.specs.Logs.{Logs};
ghost use Rattle.run_model.specs.Steps.{Setting};
ghost use Rattle.worlds.specs.Events.{Event};
ghost use Rattle.worlds.specs.Events as worlds;
ghost use Rattle.worlds.specs.Good.{IsGood};
ghost use Rattle.worlds.specs.Headline.{StandsFor};
ghost use Rattle.worlds.specs.Worlds.{World};
ghost use Rattle.headline.specs.Calls.{Called, CallStopped, CallEvent, Happens, IsReached, IsRun, IsStoppedRun};

use lp_outside::Disk;

/// A call is a run of what its words ask, in a world of which what is known of worlds holds: it ends as its answer says. So is a call that the machine stops.
pub fn a_call_is_a_run<D: Disk>()
    ensures whole { (setting : Setting) (words : List (List ℕ)) (moment : ℤ) (status : Status) (before after : Logs) (old new : D) → IsGood meaning setting before (D.state old)
        → Called D.state setting words moment status before after old new → IsRun D.state setting words moment status before after old new }
    ensures stopped { (setting : Setting) (words : List (List ℕ)) (moment : ℤ) (status : Status) (before after : Logs) (old new : D) → IsGood meaning setting before (D.state old)
        → CallStopped D.state setting words moment status before after old new → IsStoppedRun D.state setting words moment status before after old new }
{}

/// One event more leads on from a world that calls lead to: so calls of `run_in_world`, one after another, are a list of events.
pub fn calls_go_on<D: Disk>()
    ensures { (setting : Setting) (calls : List CallEvent) (old : World D) (event : CallEvent) (new : World D) → IsReached D.state setting calls old → Happens D.state setting old event new → IsReached D.state setting (calls ++ event ∷ []) new }
{}

/// A world that calls lead to is one that runs lead to.
pub fn calls_reach_worlds<D: Disk>()
    ensures { (setting : Setting) (calls : List CallEvent) (world : World D) → IsReached D.state setting calls world → (events : List Event) × worlds.IsReached D.state meaning setting events world }
{}

/// The headline, of calls of the program: after any list of appends, new logs, rotations, removals, changes of other files, calls and stops, each image of the disk, and what a read gives, recovers to a state in which each complete line of each log lies in exactly one span of one entry or is unread, in a file that is there; and each file holds, entry after entry, the texts of those that have it as an output.
pub fn each_line_once_by_calls<D: Disk>()
    ensures images { (setting : Setting) (calls : List CallEvent) (world : World D) (image : Files) → IsReached D.state setting calls world → IsImage (D.state world.disk) image → StandsFor meaning setting world.logs image }
    ensures seen { (setting : Setting) (calls : List CallEvent) (world : World D) → IsReached D.state setting calls world → StandsFor meaning setting world.logs (D.state world.disk).seen }
{}
