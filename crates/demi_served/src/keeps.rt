// What a worker and a link's coroutine keep, step by step.
ghost use Rattle.std.specs.Prelude.{◌≡◌, ◌≢◌, ◌++◌, ◌↔◌, ◌<◌, ℕ, List, Option, Some, slice_get, length};
ghost use Rattle.std.specs.List.{AllByRecursion};
ghost use Rattle.demi_port_core.specs.History.{AllAbove, Among};
ghost use Rattle.demi_port_core.specs.Trails.{Behind};
ghost use Rattle.demi_port_core.specs.declared.trail.Trail.{Trail};
ghost use Rattle.demi_spec.specs.Input.{Asked};
ghost use Rattle.demi_spec.specs.Reply.{Reply};
ghost use Rattle.demi_store.specs.History.{Said, Told};
ghost use Rattle.demi_store.specs.Laws.{StoreBasis};
ghost use Rattle.demi_store.specs.declared.ask.StoreAsk.{StoreAsk};
ghost use Rattle.demi_store.specs.declared.op.StoreOp.{StoreOp};
ghost use Rattle.demi_store.specs.declared.told.StoreTold.{StoreTold};
ghost use Rattle.demi_served.specs.Asking.{Ask, IsSaid, IsToldTo, asks_for, ask_of};
ghost use Rattle.demi_served.specs.Keeps.{Draw, Worker, Link, WorkerKeeps, LinkKeeps, of_link, numbered, IsDrawn, IsReplied};
ghost use Rattle.demi_served.specs.Steps.{new_worker, new_link, after_draw, after_ask, after_stop, after_handing, after_drawn, after_reply, GoesBeside};

/// Once the store has said something to an operation, what it says there stays as it is, whatever is asked and told later.
pub fn what_was_said_stays()
    ensures steady { (b : StoreBasis) (h more : List StoreAsk) (t later : List (ℕ × StoreTold)) (p : ℕ) (o x : Said)
        → IsSaid b h t p o → AllAbove p later → (IsSaid b (h ++ more) (t ++ later) p x ↔ IsSaid b h t p x) }
{}

/// What a worker keeps is so at first and after each step of its links.
pub fn a_worker_keeps()
    ensures first { (known : Trail StoreAsk StoreTold) → WorkerKeeps (new_worker known) }
    ensures drawn { (w : Worker) (link : ℕ) (asks : List Asked) (q : Asked) → WorkerKeeps w
        → of_link link w.draws ≡ numbered link 0 asks → WorkerKeeps (after_draw w link (length asks) q) }
    ensures asked { (w : Worker) (link : ℕ) (asks : List Asked) (q : Asked) (op : StoreOp) (p t : ℕ) → WorkerKeeps w
        → of_link link w.draws ≡ numbered link 0 asks → ask_of link (length asks) q ≡ Some (asks_for op)
        → WorkerKeeps (after_ask w link (length asks) q op p t) }
    ensures handed { (w : Worker) (known : Trail StoreAsk StoreTold) → WorkerKeeps w
        → WorkerKeeps (after_handing w known) }
    ensures stopped { (w : Worker) (p t : ℕ) → WorkerKeeps w → WorkerKeeps (after_stop w p t) }
{}

/// What a link keeps is so at first, after each step of its own, and whatever the other links of its worker do.
pub fn a_link_keeps()
    ensures first { (b : StoreBasis) (w : Worker) (link number : ℕ) → AllByRecursion (λ d. d.link ≢ link) w.draws
        → LinkKeeps b w link (new_link number) }
    ensures beside { (b : StoreBasis) (v w : Worker) (link : ℕ) (k : Link) → LinkKeeps b v link k
        → GoesBeside link v w → LinkKeeps b w link k }
    ensures drawn { (b : StoreBasis) (w : Worker) (link : ℕ) (k : Link) (q : Asked) → LinkKeeps b w link k
        → LinkKeeps b (after_draw w link (length k.drawn) q) link (after_drawn k q) }
    ensures asked { (b : StoreBasis) (w : Worker) (link : ℕ) (k : Link) (q : Asked) (op : StoreOp) (p t : ℕ)
        → LinkKeeps b w link k → LinkKeeps b (after_ask w link (length k.drawn) q op p t) link (after_drawn k q) }
    ensures handed { (b : StoreBasis) (w : Worker) (link : ℕ) (k : Link) (known : Trail StoreAsk StoreTold)
        → LinkKeeps b w link k → Behind known w.known → LinkKeeps b (after_handing w known) link k }
    // the operation with the token t was redeemed at the place `place`, and this was said there
    ensures answered { (b : StoreBasis) (w : Worker) (known : Trail StoreAsk StoreTold) (q : Asked) (r : Reply)
        (s : StoreAsk) (p t place : ℕ) → Among (p, (t, s)) w.submitted → s.sequence ≡ r.sequence
        → ((x : ℕ) (d : StoreAsk) → Among (x, (t, d)) w.submitted → x ≡ place)
        → IsToldTo b known.heard known.told place r.answer → place < known.floor
        → IsReplied b (after_handing w known) q r (Some (asks_for s.op)) }
    ensures waits { (b : StoreBasis) (v w : Worker) (link : ℕ) (q : Asked) (r : Reply) (ask : Option Ask)
        → GoesBeside link v w → IsReplied b v q r ask → IsReplied b w q r ask }
    ensures holds_draw { (v w : Worker) (link s : ℕ) (d : Draw) → GoesBeside link v w → IsDrawn v.draws s d
        → IsDrawn w.draws s d }
    ensures holds_ask { (v w : Worker) (link : ℕ) (x : ℕ × (ℕ × StoreAsk)) → GoesBeside link v w → Among x v.submitted
        → Among x w.submitted }
    ensures replied { (b : StoreBasis) (w : Worker) (link : ℕ) (k : Link) (q : Asked) (r : Reply) → WorkerKeeps w
        → LinkKeeps b w link k → slice_get k.drawn (length k.replies) ≡ Some q → r.worker ≡ k.worker
        → IsDrawn w.draws r.sequence (record { link = link; index = length k.replies; request = q })
        → IsReplied b w q r (ask_of link (length k.replies) q) → LinkKeeps b w link (after_reply k r) }
{}

/// What the other links of a worker do is beside a link, also one after the other.
pub fn other_links_are_beside()
    ensures none { (link : ℕ) (w : Worker) → GoesBeside link w w }
    ensures on { (link : ℕ) (u v w : Worker) → GoesBeside link u v → GoesBeside link v w → GoesBeside link u w }
    ensures drawn { (link other index : ℕ) (w : Worker) (q : Asked) → other ≢ link
        → GoesBeside link w (after_draw w other index q) }
    ensures asked { (link other index : ℕ) (w : Worker) (q : Asked) (op : StoreOp) (p t : ℕ) → other ≢ link
        → GoesBeside link w (after_ask w other index q op p t) }
    ensures handed { (link : ℕ) (w : Worker) (known : Trail StoreAsk StoreTold) → Behind known w.known
        → GoesBeside link w (after_handing w known) }
{}
