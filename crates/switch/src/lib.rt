// What the switch's host calls: one call each, and nothing else. Each answers the number and sets its fields through the pointers.
#![tactic(auto)]

mod tells;

ghost use Rattle.model.specs.Calls.{Fresh, Lookup, Size, Held, HeldBetween, Edits, inserting, removing, copying, clearing, uniting, lessening, Checked};
ghost use Rattle.model.specs.Batch.{BatchWords};
ghost use Rattle.model.specs.Restore.{Restore};
ghost use Rattle.model.specs.Frame.{read};
ghost use Rattle.model.specs.Lists.{Lists, listed, framed, Same};
ghost use Rattle.model.specs.Link.{Parse, Begin, Missing, Receive};
ghost use Rattle.model.specs.Request.{Ask, Resend};
ghost use Rattle.model.specs.Kiosk as flat;
ghost use Rattle.ledger.specs.Ledger as totals;
ghost use Rattle.switch.specs.Cancels.{rule_for};
ghost use Rattle.std.specs.Prelude.{eqb, ◌≡◌};

use answers::code;
use tells::{tell_done, tell_field, tell_found, tell_heard, tell_reply, tell_report};

// Writes N and zeros: sixteen empty versions.
#[unsafe(no_mangle)]
pub extern "C" fn ksk_fresh(block: &mut [u32], n: u32) -> u32
    ensures { Fresh block.old block.new n (record { number = result; found = 0; value = 0 }) }
{
    code(table::fresh(block, n))
}

// The value under a key.
#[unsafe(no_mangle)]
pub extern "C" fn ksk_lookup(
    block: &[u32],
    version: u32,
    key: u32,
    found: &mut u32,
    value: &mut u32,
) -> u32
    ensures { Lookup block.now version key (record { number = result; found = found.new; value = value.new }) }
{
    tell_found(table::lookup(block, version, key), found, value)
}

// The number of entries.
#[unsafe(no_mangle)]
pub extern "C" fn ksk_size(block: &[u32], version: u32, size: &mut u32) -> u32
    ensures { Size block.now version (record { number = result; found = 0; value = size.new }) }
{
    tell_field(table::size(block, version), 0, size)
}

// The minutes that a version holds.
#[unsafe(no_mangle)]
pub extern "C" fn ksk_held(block: &[u32], version: u32, minutes: &mut u64) -> u32
    ensures { Held block.now version (record { number = result; found = 0; value = minutes.new }) }
{
    tell_field(table::held(block, version), 0, minutes)
}

// The minutes that it holds from key first to key last, ends included.
#[unsafe(no_mangle)]
pub extern "C" fn ksk_held_between(
    block: &[u32],
    version: u32,
    first: u32,
    last: u32,
    minutes: &mut u64,
) -> u32
    ensures { HeldBetween block.now version first last (record { number = result; found = 0; value = minutes.new }) }
{
    tell_field(table::held_between(block, version, first, last), 0, minutes)
}

// Version dest becomes version source with value under key.
#[unsafe(no_mangle)]
pub extern "C" fn ksk_insert(
    block: &mut [u32],
    dest: u32,
    source: u32,
    key: u32,
    value: u32,
    had: &mut u32,
    old: &mut u32,
) -> u32
    ensures { Edits block.old block.new (inserting block.old dest source key value) (record { number = result; found = had.new; value = old.new }) }
{
    tell_found(table::insert(block, dest, source, key, value), had, old)
}

// Version dest becomes version source without key.
#[unsafe(no_mangle)]
pub extern "C" fn ksk_remove(
    block: &mut [u32],
    dest: u32,
    source: u32,
    key: u32,
    had: &mut u32,
    old: &mut u32,
) -> u32
    ensures { Edits block.old block.new (removing block.old dest source key) (record { number = result; found = had.new; value = old.new }) }
{
    tell_found(table::remove(block, dest, source, key), had, old)
}

// Version dest becomes version source.
#[unsafe(no_mangle)]
pub extern "C" fn ksk_copy(block: &mut [u32], dest: u32, source: u32) -> u32
    ensures { Edits block.old block.new (copying block.old dest source) (record { number = result; found = 0; value = 0 }) }
{
    code(table::copy(block, dest, source))
}

// Version dest becomes version source after the edits, three words a record.
#[unsafe(no_mangle)]
pub extern "C" fn ksk_batch(block: &mut [u32], dest: u32, source: u32, edits: &[u32]) -> u32
    ensures { BatchWords block.old block.new dest source edits.now result }
{
    code(batch::batch_words(block, dest, source, edits))
}

// A version becomes what the lines of a text say; line is the number of a faulty one.
#[unsafe(no_mangle)]
pub extern "C" fn ksk_restore(block: &mut [u32], version: u32, text: &[u8], line: &mut u64) -> u32
    ensures { Restore block.old block.new version text.now result line.new }
{
    match restore::restore(block, version, text) {
        Ok(()) => {
            *line = 0;
            0
        }
        Err(fault) => {
            *line = fault.line();
            fault.number()
        }
    }
}

// A version becomes empty.
#[unsafe(no_mangle)]
pub extern "C" fn ksk_clear(block: &mut [u32], version: u32) -> u32
    ensures { Edits block.old block.new (clearing version) (record { number = result; found = 0; value = 0 }) }
{
    code(table::clear(block, version))
}

// Version dest becomes the union of versions left and right.
#[unsafe(no_mangle)]
pub extern "C" fn ksk_union(block: &mut [u32], dest: u32, left: u32, right: u32, rule: u32) -> u32
    ensures { Edits block.old block.new (uniting block.old dest left right rule) (record { number = result; found = 0; value = 0 }) }
{
    code(table::union(block, dest, left, right, rule))
}

// The rule, where cancel is 0 or 1; else a number that is no rule.
fn rule_for(cancel: u32, rule: u32) -> u32
    ensures { result ≡ rule_for cancel rule }
{
    if cancel < 2 {
        return rule;
    }
    4294967295
}

// Version dest becomes version left less version right.
#[unsafe(no_mangle)]
pub extern "C" fn ksk_difference(
    block: &mut [u32],
    dest: u32,
    left: u32,
    right: u32,
    rule: u32,
    cancel: u32,
) -> u32
    ensures { Edits block.old block.new (lessening block.old dest left right (rule_for cancel rule) (eqb cancel 1)) (record { number = result; found = 0; value = 0 }) }
{
    code(table::difference(
        block,
        dest,
        left,
        right,
        rule_for(cancel, rule),
        cancel == 1,
    ))
}

// Version left listed against version right, from index start on.
#[unsafe(no_mangle)]
pub extern "C" fn ksk_list(
    block: &[u32],
    left: u32,
    right: u32,
    start: u32,
    out: &mut [u32],
    written: &mut u32,
    total: &mut u32,
) -> u32
    ensures { Lists block.now out.old out.new start (listed block.now left right) (record { number = result; written = written.new; total = total.new }) }
{
    tell_report(
        lists::entries::list(block, left, right, start, out),
        written,
        total,
    )
}

// The lines that carry version from to version to, from index start on.
#[unsafe(no_mangle)]
pub extern "C" fn ksk_frames(
    block: &[u32],
    from: u32,
    to: u32,
    batch: u32,
    start: u32,
    out: &mut [u8],
    written: &mut u32,
    total: &mut u32,
) -> u32
    ensures { Lists block.now out.old out.new start (framed block.now from to batch) (record { number = result; written = written.new; total = total.new }) }
{
    tell_report(
        lists::lines::frames(block, from, to, batch, start, out),
        written,
        total,
    )
}

// Whether two versions hold the same entries: 1 or 0.
#[unsafe(no_mangle)]
pub extern "C" fn ksk_same(block: &[u32], from: u32, to: u32, same: &mut u32) -> u32
    ensures { Same block.now from to (record { number = result; found = 0; value = same.new }) }
{
    match lists::same::same(block, from, to) {
        Ok(are) => {
            *same = are as u32;
            0
        }
        Err(refusal) => {
            *same = 0;
            refusal.number()
        }
    }
}

// The fields of one line, or what is wrong with it.
#[unsafe(no_mangle)]
pub extern "C" fn ksk_parse(
    line: &[u8],
    batch: &mut u32,
    index: &mut u32,
    count: &mut u32,
    kind: &mut u32,
    key: &mut u32,
    value: &mut u32,
    place: &mut u32,
) -> u32
    ensures { Parse (read line.now) result (record { batch = batch.new; index = index.new; count = count.new; kind = kind.new; key = key.new; value = value.new }) place.new }
{
    *batch = 0;
    *index = 0;
    *count = 0;
    *kind = 0;
    *key = 0;
    *value = 0;
    *place = 0;
    match link::parse(line) {
        Ok(f) => {
            *batch = f.batch;
            *index = f.index;
            *count = f.count;
            *kind = f.kind;
            *key = f.key;
            *value = f.value;
            0
        }
        Err(fault) => {
            *place = fault.place();
            fault.number()
        }
    }
}

// The inbox made ready for a batch.
#[unsafe(no_mangle)]
pub extern "C" fn ksk_begin(inbox: &mut [u32], batch: u32) -> u32
    ensures { Begin inbox.old inbox.new batch result }
{
    code(inbox::begin(inbox, batch))
}

// One line heard.
#[unsafe(no_mangle)]
pub extern "C" fn ksk_receive(
    block: &mut [u32],
    inbox: &mut [u32],
    version: u32,
    line: &[u8],
    repeat: &mut u32,
    missing: &mut u32,
    place: &mut u32,
) -> u32
    ensures { Receive (record { block = block.old; inbox = inbox.old; block' = block.new; inbox' = inbox.new; answer = record { number = result; again = repeat.new; missing = missing.new; place = place.new } }) version line.now }
{
    tell_heard(
        link::receive(block, inbox, version, line),
        repeat,
        missing,
        place,
    )
}

// How many lines are missing.
#[unsafe(no_mangle)]
pub extern "C" fn ksk_missing(inbox: &[u32], missing: &mut u32) -> u32
    ensures { Missing inbox.now result missing.new }
{
    tell_field(inbox::question(inbox), 0, missing)
}

// The lines that ask for what the inbox misses, from index start on.
#[unsafe(no_mangle)]
pub extern "C" fn ksk_ask(
    inbox: &[u32],
    start: u32,
    out: &mut [u8],
    written: &mut u32,
    total: &mut u32,
) -> u32
    ensures { Ask inbox.now out.old out.new start (record { number = result; written = written.new; total = total.new }) }
{
    tell_report(lists::ask::ask(inbox, start, out), written, total)
}

// The lines that a request asks for, from index start on.
#[unsafe(no_mangle)]
pub extern "C" fn ksk_resend(
    block: &[u32],
    from: u32,
    to: u32,
    batch: u32,
    request: &[u8],
    start: u32,
    out: &mut [u8],
    written: &mut u32,
    total: &mut u32,
) -> u32
    ensures { Resend (record { block = block.now; from = from; to = to; batch = batch }) request.now out.old out.new start (record { number = result; written = written.new; total = total.new }) }
{
    tell_report(
        lists::resend::resend(block, from, to, batch, request, start, out),
        written,
        total,
    )
}

// 0 for a sound block, else SHAPE or DAMAGED.
#[unsafe(no_mangle)]
pub extern "C" fn ksk_audit(block: &[u32]) -> u32
    ensures { Checked block.now result }
{
    code(audit::check(block))
}

// A ledger of so many accounts with nothing in them.
#[unsafe(no_mangle)]
pub extern "C" fn ksk_ledger_fresh(ledger: &mut [u64], accounts: u32) -> u32
    ensures { totals.Fresh ledger.old ledger.new accounts result }
{
    tell_done(ledger::fresh(ledger, accounts))
}

// Minutes paid for.
#[unsafe(no_mangle)]
pub extern "C" fn ksk_ledger_top_up(ledger: &mut [u64], account: u32, minutes: u64) -> u32
    ensures { totals.TopUp ledger.old ledger.new account minutes result }
{
    tell_done(ledger::top_up(ledger, account, minutes))
}

// A call opens.
#[unsafe(no_mangle)]
pub extern "C" fn ksk_ledger_reserve(
    ledger: &mut [u64],
    block: &mut [u32],
    version: u32,
    call: u32,
    minutes: u32,
    table: &mut u32,
) -> u32
    ensures { totals.Reserve (record { ledger = ledger.old; block = block.old; ledger' = ledger.new; block' = block.new; answer = record { number = result; table = table.new } }) version call minutes }
{
    tell_reply(
        ledger::reserve(ledger, block, version, call, minutes),
        table,
    )
}

// A call ends.
#[unsafe(no_mangle)]
pub extern "C" fn ksk_ledger_settle(
    ledger: &mut [u64],
    block: &mut [u32],
    version: u32,
    call: u32,
    used: u32,
    table: &mut u32,
) -> u32
    ensures { totals.Settle (record { ledger = ledger.old; block = block.old; ledger' = ledger.new; block' = block.new; answer = record { number = result; table = table.new } }) version call used }
{
    tell_reply(ledger::settle(ledger, block, version, call, used), table)
}

// A call is dropped.
#[unsafe(no_mangle)]
pub extern "C" fn ksk_ledger_release(
    ledger: &mut [u64],
    block: &mut [u32],
    version: u32,
    call: u32,
    table: &mut u32,
) -> u32
    ensures { totals.Release (record { ledger = ledger.old; block = block.old; ledger' = ledger.new; block' = block.new; answer = record { number = result; table = table.new } }) version call }
{
    tell_reply(ledger::release(ledger, block, version, call), table)
}

// An account's totals.
#[unsafe(no_mangle)]
pub extern "C" fn ksk_ledger_account(
    ledger: &[u64],
    account: u32,
    topped: &mut u64,
    spent: &mut u64,
    free: &mut u64,
) -> u32
    ensures { totals.Account ledger.now account (record { number = result; topped = topped.new; spent = spent.new; free = free.new }) }
{
    *topped = 0;
    *spent = 0;
    *free = 0;
    match ledger::account(ledger, account) {
        Ok(totals) => {
            *topped = totals.topped;
            *spent = totals.spent;
            *free = totals.free;
            0
        }
        Err(fault) => fault.number(),
    }
}

// A kiosk with no entries.
#[unsafe(no_mangle)]
pub extern "C" fn ksk_kiosk_fresh(kiosk: &mut [u32]) -> u32
    ensures { flat.Fresh kiosk.old kiosk.new result }
{
    code(kiosk::fresh(kiosk))
}

// The value under a key of a kiosk.
#[unsafe(no_mangle)]
pub extern "C" fn ksk_kiosk_lookup(kiosk: &[u32], key: u32, found: &mut u32, value: &mut u32) -> u32
    ensures { flat.Lookup kiosk.now key (record { number = result; found = found.new; value = value.new }) }
{
    tell_found(kiosk::lookup(kiosk, key), found, value)
}

// A key put into a kiosk.
#[unsafe(no_mangle)]
pub extern "C" fn ksk_kiosk_insert(
    kiosk: &mut [u32],
    key: u32,
    value: u32,
    had: &mut u32,
    old: &mut u32,
) -> u32
    ensures { flat.Insert kiosk.old kiosk.new key value (record { number = result; found = had.new; value = old.new }) }
{
    tell_found(kiosk::insert(kiosk, key, value), had, old)
}

// A key taken out of a kiosk.
#[unsafe(no_mangle)]
pub extern "C" fn ksk_kiosk_remove(kiosk: &mut [u32], key: u32, had: &mut u32, old: &mut u32) -> u32
    ensures { flat.Remove kiosk.old kiosk.new key (record { number = result; found = had.new; value = old.new }) }
{
    tell_found(kiosk::remove(kiosk, key), had, old)
}

// The entries of a kiosk.
#[unsafe(no_mangle)]
pub extern "C" fn ksk_kiosk_list(
    kiosk: &[u32],
    start: u32,
    out: &mut [u32],
    written: &mut u32,
    total: &mut u32,
) -> u32
    ensures { flat.Lists kiosk.now out.old out.new start (record { number = result; written = written.new; total = total.new }) }
{
    tell_report(kiosk::list(kiosk, start, out), written, total)
}

// One line heard at a kiosk.
#[unsafe(no_mangle)]
pub extern "C" fn ksk_kiosk_receive(
    kiosk: &mut [u32],
    inbox: &mut [u32],
    line: &[u8],
    repeat: &mut u32,
    missing: &mut u32,
    place: &mut u32,
) -> u32
    ensures { flat.Receive (record { block = kiosk.old; inbox = inbox.old; block' = kiosk.new; inbox' = inbox.new; answer = record { number = result; again = repeat.new; missing = missing.new; place = place.new } }) line.now }
{
    tell_heard(kiosk::receive(kiosk, inbox, line), repeat, missing, place)
}
