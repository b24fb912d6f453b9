//! Laws of the depths that fit the marks of an open transaction, and of the texts that begin one. Each function does nothing:
//! its contract is the law.
ghost use Rattle.std.specs.Prelude.{◌≡◌, ◌<◌, ℕ, suc, true, List, None, Some};
ghost use Rattle.conn_model.specs.Beginnings.{form_text};
ghost use Rattle.conn_model.specs.Classes.{class};
ghost use Rattle.conn_model.specs.Fits.{fits};
ghost use Rattle.conn_model.specs.Nuls.{nul_place};
ghost use Rattle.conn_model.specs.States.{Open, Transaction, accepts_class};
ghost use Rattle.conn_model.specs.declared.class.Class.TheVariants.{Begin, Savepoint, RollbackTo, Release};
ghost use Rattle.conn_model.specs.declared.item.Dialect.{Dialect};
ghost use Rattle.conn_model.specs.declared.transaction.BlockForm.{BlockForm};

/// After an accepted savepoint of a depth that fits, one depth more fits.
pub fn fits_is_kept_by_a_savepoint()
    ensures { (d : Dialect) (t u : Transaction) (text : List ℕ) (depth : ℕ) → 0 < depth
        → fits depth t.marks ≡ true
        → accepts_class d (Open t) text (Savepoint depth) ≡ Some (Open u)
        → fits (suc depth) u.marks ≡ true }
{}

/// After the accepted release of the newest savepoint of a depth that fits, one depth less fits.
pub fn fits_is_kept_by_a_release()
    ensures { (d : Dialect) (t u : Transaction) (text : List ℕ) (depth : ℕ) → 0 < depth
        → fits (suc depth) t.marks ≡ true
        → accepts_class d (Open t) text (Release depth) ≡ Some (Open u)
        → fits depth u.marks ≡ true }
{}

/// The same after an accepted rollback to it.
pub fn fits_is_kept_by_going_back()
    ensures { (d : Dialect) (t u : Transaction) (text : List ℕ) (depth : ℕ) → 0 < depth
        → fits (suc depth) t.marks ≡ true
        → accepts_class d (Open t) text (RollbackTo depth) ≡ Some (Open u)
        → fits depth u.marks ≡ true }
{}

/// The text of each form begins a transaction, and has no NUL.
#[tactic(auto, using(crate::proofs::Beginnings::form_is_plain))]
pub fn forms_begin_a_transaction()
    ensures begin { (form : BlockForm) → class (form_text form) ≡ Begin }
    ensures no_nul { (form : BlockForm) → nul_place (form_text form) ≡ None }
{}
