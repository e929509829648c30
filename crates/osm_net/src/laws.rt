//! Laws of networks: what a graph means, what moves keep, and that some task can move.
ghost use Rattle.std.specs.Prelude.{true, false, ◌≡◌, ◌≢◌, ◌<◌, ◌≤◌, ◌+◌, ◌*◌, ◌⊎◌, ◌∷◌, ◌++◌, [], ℕ, Bool, List, length};
ghost use Rattle.osm_entity.specs.Calls.{Gives, Pulls, Takes};
ghost use Rattle.osm_entity.specs.Streams.{Stream};
ghost use Rattle.osm_entity.specs.declared.stream.Message.{Message};
ghost use Rattle.osm_entity.specs.declared.stream.Want.TheVariants.{Give};
ghost use Rattle.osm_graph.specs.Pipes.{IsWholeGraph, pipe_of};
ghost use Rattle.osm_graph.specs.declared.pipe.Pipe.{Pipe};
ghost use Rattle.osm_net.specs.Histories.{Gave, History, MayFollowAll, Move, Pulled, Took, most_pulls, new_history, pulls_in, with_move, with_moves};
ghost use Rattle.osm_net.specs.Meaning.{IsMeaning, Rules, messages_in, streams_by};
ghost use Rattle.osm_net.specs.Measure.{net_weight};
ghost use Rattle.osm_net.specs.Nets.{AllEnded, AreBehind, AreStanding, CanHold, HasNoBareCircle, HasRoom, IsGraphOf, IsOrderly, NetStands, Others, SomeCanMove};
ghost use Rattle.osm_net.specs.Runs.{AreTasks, IsBeforeMeant, IsMeant, IsRunOf, IsRunSoFar, IsWholeRun};

use crate::machine::TaskMachine;

/// A graph has one meaning: the streams that its tasks give in command order.
pub fn a_graph_has_one_meaning()
    ensures there_is { (tasks : ℕ) (inputs outputs : ℕ → ℕ) (pipes : List Pipe) (rule : Rules)
        → IsWholeGraph tasks inputs outputs pipes
        → IsMeaning pipes rule (streams_by pipes rule tasks) }
    ensures one { (tasks : ℕ) (inputs outputs : ℕ → ℕ) (pipes : List Pipe) (rule : Rules)
        → IsWholeGraph tasks inputs outputs pipes → (s t : ℕ → Stream)
        → IsMeaning pipes rule s → IsMeaning pipes rule t
        → (p : ℕ) → p < length pipes → s p ≡ t p }
{}

/// What machines did is before what their graph means, at any time and whatever the order of their
/// moves, also where one is out of memory; and where all have ended it is all of it, with their bytes
/// and verdicts.
pub fn machines_do_what_is_meant<M: TaskMachine>()
    ensures stand { (tasks : ℕ) (pipes : List Pipe) (machine : ℕ → M) (h : History M)
        → IsGraphOf M.of tasks machine pipes → AreStanding M.of tasks pipes machine h
        → AreBehind M.of tasks pipes machine h }
    ensures so_far { (tasks : ℕ) (pipes : List Pipe) (machine : ℕ → M) (h : History M)
        (streams : ℕ → Stream) → IsGraphOf M.of tasks machine pipes
        → AreBehind M.of tasks pipes machine h → IsMeant M.of pipes machine h streams
        → IsRunSoFar M.of tasks pipes machine h streams }
    ensures ended { (tasks : ℕ) (pipes : List Pipe) (machine : ℕ → M) (h : History M)
        (streams : ℕ → Stream) → IsGraphOf M.of tasks machine pipes
        → AreStanding M.of tasks pipes machine h → AllEnded M.of tasks machine
        → IsMeant M.of pipes machine h streams → IsWholeRun M.of tasks pipes machine h streams }
    ensures run { (tasks : ℕ) (pipes : List Pipe) (machine : ℕ → M) (h : History M)
        → IsGraphOf M.of tasks machine pipes → AreStanding M.of tasks pipes machine h
        → AllEnded M.of tasks machine → IsRunOf M.of tasks pipes machine false h }
    ensures memory { (tasks : ℕ) (pipes : List Pipe) (machine : ℕ → M) (h : History M)
        → IsGraphOf M.of tasks machine pipes → AreBehind M.of tasks pipes machine h
        → IsRunOf M.of tasks pipes machine true h }
{}

/// A network stands at first for the history in which nothing happened. Each move keeps what it
/// stands for, whatever that was: with a message taken, given or a piece pulled by one task it
/// stands for the same history with that move more.
pub fn moves_keep_the_network<M: TaskMachine>()
    ensures new { (tasks : ℕ) (pipes : List Pipe) (machine : ℕ → M)
        → AreTasks M.of tasks pipes machine
        → NetStands M.of tasks pipes machine (λ p. []) (new_history machine) }
    ensures took { (tasks : ℕ) (pipes : List Pipe) (machine now : ℕ → M)
        (queue left : ℕ → List Message) (h : History M) (p : ℕ) (m : Message)
        → IsGraphOf M.of tasks machine pipes → p < length pipes
        → Others p queue left → queue p ≡ m ∷ left p → Others (pipe_of pipes p).to machine now
        → Takes M.of (pipe_of pipes p).to_port m (machine (pipe_of pipes p).to)
        (now (pipe_of pipes p).to)
        → NetStands M.of tasks pipes machine queue h
        → NetStands M.of tasks pipes now left (with_move h (Took p)) }
    ensures gave { (tasks : ℕ) (pipes : List Pipe) (machine now : ℕ → M)
        (queue more : ℕ → List Message) (h : History M) (p : ℕ) (m : Message)
        → IsGraphOf M.of tasks machine pipes → p < length pipes
        → Others p queue more → more p ≡ queue p ++ m ∷ []
        → HasRoom (pipe_of pipes p).store (length (queue p))
        → Others (pipe_of pipes p).from machine now
        → M.of.wanted (machine (pipe_of pipes p).from) ≡ Give (pipe_of pipes p).from_port
        → Gives M.of (pipe_of pipes p).from_port m (machine (pipe_of pipes p).from)
        (now (pipe_of pipes p).from)
        → NetStands M.of tasks pipes machine queue h
        → NetStands M.of tasks pipes now more (with_move h (Gave p m)) }
    ensures pulled { (tasks : ℕ) (pipes : List Pipe) (machine now : ℕ → M)
        (queue : ℕ → List Message) (h : History M) (t : ℕ) → t < tasks → Others t machine now
        → (pulls : Pulls M.of (machine t) (now t)) → NetStands M.of tasks pipes machine queue h
        → NetStands M.of tasks pipes now queue
        (with_move h (Pulled t (M.of.task (machine t)).limit pulls.piece pulls.came)) }
{}

/// A network over a graph without a bare circle goes on: whatever moves led to it, all its tasks
/// have ended or one of them can move.
pub fn a_network_without_a_bare_circle_goes_on<M: TaskMachine>()
    ensures { (tasks : ℕ) (pipes : List Pipe) (machine : ℕ → M) (queue : ℕ → List Message)
        (h : History M) → IsGraphOf M.of tasks machine pipes → CanHold pipes
        → HasNoBareCircle pipes → NetStands M.of tasks pipes machine queue h
        → AllEnded M.of tasks machine ⊎ SomeCanMove M.of tasks pipes machine queue }
{}

/// A network has less to do with each move, where no task has more than `outputs` outputs.
pub fn moves_leave_less_to_do<M: TaskMachine>()
    ensures took { (outputs tasks : ℕ) (pipes : List Pipe) (machine now : ℕ → M)
        (queue left : ℕ → List Message) (p : ℕ) (m : Message)
        → IsGraphOf M.of tasks machine pipes
        → ((t : ℕ) → t < tasks → (M.of.task (machine t)).outputs ≤ outputs) → p < length pipes
        → Others p queue left → queue p ≡ m ∷ left p → Others (pipe_of pipes p).to machine now
        → Takes M.of (pipe_of pipes p).to_port m (machine (pipe_of pipes p).to)
        (now (pipe_of pipes p).to)
        → net_weight outputs tasks pipes (λ t. M.of.left (now t)) left
        < net_weight outputs tasks pipes (λ t. M.of.left (machine t)) queue }
    ensures gave { (outputs tasks : ℕ) (pipes : List Pipe) (machine now : ℕ → M)
        (queue more : ℕ → List Message) (p : ℕ) (m : Message)
        → IsGraphOf M.of tasks machine pipes → p < length pipes
        → Others p queue more → more p ≡ queue p ++ m ∷ []
        → Others (pipe_of pipes p).from machine now
        → Gives M.of (pipe_of pipes p).from_port m (machine (pipe_of pipes p).from)
        (now (pipe_of pipes p).from)
        → net_weight outputs tasks pipes (λ t. M.of.left (now t)) more
        < net_weight outputs tasks pipes (λ t. M.of.left (machine t)) queue }
    ensures pulled { (outputs tasks : ℕ) (pipes : List Pipe) (machine now : ℕ → M)
        (queue : ℕ → List Message) (t : ℕ) → t < tasks → Others t machine now
        → Pulls M.of (machine t) (now t)
        → net_weight outputs tasks pipes (λ t. M.of.left (now t)) queue
        < net_weight outputs tasks pipes (λ t. M.of.left (machine t)) queue }
{}

/// Each move sends one message, takes one, or is a pull. So at the end there were two moves for
/// each message of the meaning, and the pulls; at any time no more. A task that reads pulls at most
/// once for each byte that came, and once more.
pub fn moves_are_counted<M: TaskMachine>()
    ensures ended { (tasks : ℕ) (pipes : List Pipe) (made machine : ℕ → M) (reads : ℕ → Bool)
        (moves : List Move) (streams : ℕ → Stream) → IsGraphOf M.of tasks machine pipes
        → MayFollowAll tasks (length pipes) reads (new_history made) moves
        → AreStanding M.of tasks pipes machine (with_moves (new_history made) moves)
        → AllEnded M.of tasks machine
        → IsMeant M.of pipes machine (with_moves (new_history made) moves) streams
        → length moves ≡ 2 * messages_in pipes streams + pulls_in moves }
    ensures so_far { (tasks : ℕ) (pipes : List Pipe) (made : ℕ → M) (reads : ℕ → Bool)
        (moves : List Move) (streams : ℕ → Stream)
        → MayFollowAll tasks (length pipes) reads (new_history made) moves
        → IsOrderly pipes (with_moves (new_history made) moves)
        → IsBeforeMeant pipes streams (with_moves (new_history made) moves)
        → length moves ≤ 2 * messages_in pipes streams + pulls_in moves }
    ensures pulls { (tasks pipes : ℕ) (made : ℕ → M) (reads : ℕ → Bool) (moves : List Move)
        → MayFollowAll tasks pipes reads (new_history made) moves
        → pulls_in moves ≤ most_pulls tasks reads (with_moves (new_history made) moves) }
{}
