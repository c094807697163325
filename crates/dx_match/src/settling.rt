//! The risk of an account once it is settled, and whether it can be.

ghost use Rattle.std.specs.Prelude.{◌≡◌, ◌<◌, ◌^◌, All, unsigned_abs, not, is_none, IfOk};
ghost use Rattle.dx_spec.specs.State.{account_of as account_in, is_scaled};
ghost use Rattle.dx_spec.specs.Margin.{risk as risk_in};
ghost use Rattle.dx_spec.specs.Accounts.{settle_step};
ghost use Rattle.dx_node_spec.specs.Sweeping.{settled_risk as risk_settled};
ghost use Rattle.dx_margin.specs.Ranges.{HasSizes, IsMarket, IsCovered};
ghost use Rattle.dx_margin.specs.Settling.{settlement};
ghost use Rattle.dx_ledger.specs.Marks.{KeepsMarks};
ghost use Rattle.dx_accounts.specs.Steady.{IsSteady};
ghost use Rattle.dx_match.specs.Conditions.{IsSettleable};

use dx_accounts::{TouchFault, account_of, settle_account};
use dx_ledger::{Branch, Ledger};
use dx_margin::{Settled, risk, settle};
use dx_types::{Account, NoMemory, Risk, SubaccountId};

/// An account's settlement by the markets of the ledger.
fn settled<L: Ledger>(ledger: &L, account: &Account) -> Option<Settled>
    requires { HasSizes account.now }
    ensures { result ≡ settlement (L.content ledger.now).markets account.now }
{
    settle(ledger, account)
}

/// The risk of an account by the markets of the ledger.
fn risk_at<L: Ledger>(ledger: &L, account: &Account) -> Risk
    requires markets { All IsMarket (L.content ledger.now).markets }
    requires covered { IsCovered (L.content ledger.now).markets account.now }
    ensures { result ≡ risk_in (is_scaled (L.content ledger.now)) (L.content ledger.now).markets account.now }
{
    risk(ledger, account)
}

/// The risk of an account once it is settled. Nothing is written.
pub(crate) fn settled_risk<L: Ledger>(ledger: &L, who: SubaccountId) -> Risk
    requires steady { IsSteady (L.content ledger.now) }
    requires settles { IsSettleable (L.content ledger.now) who }
    ensures { result ≡ risk_settled (L.content ledger.now) who }
{
    let account = account_of(ledger, who);
    match settled(ledger, &account) {
        Some(after) => risk_at(ledger, &after.account),
        // Its quote keeps the bound.
        None => unreachable!(),
    }
}

/// Whether an account can be settled; one that is not kept has nothing to settle. The content stays as it is.
pub(crate) fn can_settle<L: Branch>(ledger: &mut L, who: SubaccountId) -> Result<bool, NoMemory>
    requires { IsSteady (L.content ledger.old) }
    ensures ok { IfOk result (λ can. can ≡ not (is_none (settle_step (L.content ledger.old) who))) }
    ensures same { L.content ledger.new ≡ L.content ledger.old }
    ensures marks { KeepsMarks L.stands L.marked ledger.old ledger.new }
    ensures beside { L.beside ledger.new ≡ L.beside ledger.old }
{
    let mark = ledger.mark()?;
    let settled = settle_account(ledger, who);
    ledger.rollback(mark);
    match settled {
        Ok(()) => Ok(true),
        Err(TouchFault::Bound) => Ok(false),
        Err(TouchFault::NoMemory) => Err(NoMemory),
        // No account is kept that was not.
        Err(TouchFault::Accounts) => unreachable!(),
    }
}
