//! Laws of groups. Each function does nothing: its contract is the law.

ghost use Rattle.zs_group_laws.specs.Groups.{DefaultSessionsStart, SidesSeeMembers};

use zs_delivery::remote_tokens_are_declared;

/// Behind every schedule of joins, leaves and deliveries, the tokens that a side holds are those that its accepted events declared
/// and did not end. It sees of each name as many as it holds tokens itself and as it was told tokens of the other side that were
/// not ended: where nothing of the other waits, as many as both hold. Where nothing waits at all, both sides see the same.
pub fn sides_see_members()
    ensures { SidesSeeMembers }
{
    remote_tokens_are_declared();
}

/// Sessions of the default settings accept the first declaration: so the law above says something of them.
pub fn default_sessions_start()
    ensures { DefaultSessionsStart }
{}
