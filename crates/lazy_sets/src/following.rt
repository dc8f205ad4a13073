// Going over a list of records for the lazy reckoning: each is accepted as the step would, and followed, up to the first that is refused.
ghost use Rattle.std.specs.Prelude.{◌≡◌, map};
ghost use Rattle.theory.specs.acceptance.Refusals.{refusal_in};
ghost use Rattle.requests.specs.following.Following.{record_in, run_of, followed};
ghost use Rattle.requests.specs.lazy.Fold.{lazy_after};
ghost use Rattle.requests.proofs.lazy.Code.{WithinCount};
ghost use Rattle.lazy_sets.specs.AsLazy.{as_lazy};

use crate::asked::EndingAccess;
use crate::kept::LazySets;
use acceptance::admit;
use basics::record_at;
use theory::{Control, Refusal};

impl LazySets {
    // Where it stopped, the row that refused the record there.
    pub(crate) fn follow(
        &mut self,
        list: &[[u32; 3]],
        q: EndingAccess,
        control: &mut Control,
    ) -> Result<(), Refusal>
        requires { WithinCount control.old self.old.walk.walked }
        ensures { run_of (refusal_in result) control.new (as_lazy self.new)
            ≡ followed (lazy_after q.record) control.old (as_lazy self.old) (map record_in list.now) }
    {
        for i in 0..list.len() {
            let r = record_at(list, i);
            admit(control, r.kind, r.task, r.on)?;
            self.follow_record(q, r);
        }
        Ok(())
    }
}
