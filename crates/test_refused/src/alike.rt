use tr_kernel::Kernel;
use tr_model::Same;
use tr_table::Table;

/// Whether two kernels have the same journal, replies, fates, totals and table, as far as their readers tell.
pub fn are_alike(one: &Kernel, other: &Kernel) -> bool {
    have_same_entries(one, other)
        && one.totals() == other.totals()
        && have_same_replies(one, other)
        && have_same_fates(one, other)
        && are_tables_alike(one.table(), other.table())
}

fn have_same_entries(one: &Kernel, other: &Kernel) -> bool {
    let (ours, others) = (one.journal(), other.journal());
    ours.len() == others.len() && ours.iter().zip(others).all(|(a, b)| a.same(b))
}

fn have_same_replies(one: &Kernel, other: &Kernel) -> bool {
    let entries = one.journal().len() as u64;
    (1..=entries).all(|position| one.reply_at(position) == other.reply_at(position))
}

fn have_same_fates(one: &Kernel, other: &Kernel) -> bool {
    let accepted = one.table().accepted();
    (1..=accepted).all(|number| one.fate(number) == other.fate(number))
}

fn are_tables_alike(one: &Table, other: &Table) -> bool {
    one.threads() == other.threads()
        && one.groups() == other.groups()
        && one.accepted() == other.accepted()
        && one.raised() == other.raised()
        && one.queued() == other.queued()
        && have_same_pending(one, other)
}

fn have_same_pending(one: &Table, other: &Table) -> bool {
    (1..=one.accepted()).all(|number| one.waiting(number) == other.waiting(number))
}
