ghost use Rattle.std.specs.Prelude.{◌≡◌, ℕ, Bool, false, List as Items, ◌++◌, Option};
ghost use Rattle.std.specs.List.{AllByRecursion, flat_map};
ghost use Rattle.aseba_message.specs.Message.{Message};
ghost use Rattle.aseba_router.specs.Hub.{Act, Put, owed, since};
ghost use Rattle.aseba_router.specs.Port.{Port, ends};
ghost use Rattle.aseba_router.specs.Told.{Deed, Follows, items, joined, refused, told, whole_share};
ghost use Rattle.aseba_router.specs.declared.session.Session.{Session as TheSession};

/// Whatever comes back, and however often the Ends that wait are tried: what was pushed to a port,
/// and then the Ends that wait for it, are its sessions' shares, one behind the other. A share is
/// what the session is owed, and its End once it has left.
pub fn told_in_shares()
    ensures { (echo : Bool) (p : ℕ) (deeds : Items Deed) (port : Port) (list : Items Put) →
        Follows echo p deeds port list → list ++ ends port.waiting ≡ told echo p deeds }
{}

/// Where nothing comes back, each session's share is all that the others said since it joined, and
/// with echo what it said itself.
pub fn told_whole()
    ensures { (echo : Bool) (p : ℕ) (deeds : Items Deed) (port : Port) (list : Items Put) →
        Follows echo p deeds port list → AllByRecursion (λ d. d.back ≡ false) deeds →
        list ≡ flat_map (whole_share echo (items deeds)) (joined p (items deeds)) }
{}

/// Where something comes back, what a session is owed is the front of all that was said since it
/// joined: nothing is left out before its end.
pub fn owed_in_front()
    ensures { (echo : Bool) (s : TheSession) (place : Option ℕ) (acts : Items Act) →
        (missed : Items Message) × (since echo s acts ≡ owed echo s place acts ++ missed) }
{}
