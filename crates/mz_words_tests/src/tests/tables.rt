//! The table of calls.

/// Calls of actor 0, one behind the other, on 1,024 words whose first function is 7: a name, the call with its place and value,
/// and what comes of it. An entry is its kind, its place, its value and what it saw.
pub(crate) const CALLS: &str = "\
a load sees the word | load 6 0 | 7, Load 6 0 7, 0 lost
a store doesn't look | store 300 5 | 0, Store 300 5 0, 0 lost
a store is seen | load 300 0 | 5, Load 300 0 5, 0 lost
a sum goes round | fetch_add 300 18446744073709551615 | 5, Add 300 18446744073709551615 5, 0 lost
it went round | load 300 0 | 4, Load 300 0 4, 0 lost
a difference goes round | fetch_sub 300 5 | 4, Sub 300 5 4, 0 lost
it went round, too | load 300 0 | 18446744073709551615, Load 300 0 18446744073709551615, 0 lost
a larger number is kept | fetch_max 301 9 | 0, Max 301 9 0, 0 lost
a smaller one isn't | fetch_max 301 3 | 9, Max 301 3 9, 0 lost
the larger one stays | load 301 0 | 9, Load 301 0 9, 0 lost
a free lock is won | try_lock 302 0 | 1, Lock 302 1 0, 0 lost
a held one isn't | try_lock 302 0 | 0, no entry, 1 lost
each failed try counts | try_lock 302 0 | 0, no entry, 2 lost
so does a word that is no lock | try_lock 301 0 | 0, no entry, 3 lost
it stays | until_zero 301 0 | 9, no entry, 3 lost
a look for another number than 0 | until_not_zero 303 0 | 0, no entry, 3 lost
such a look that is met | until_not_zero 302 0 | 1, Load 302 0 1, 0 lost
a look for 0 that isn't met | until_zero 302 0 | 1, no entry, 0 lost
one that is met | until_zero 303 0 | 0, Load 303 0 0, 0 lost
a lock is released | store 302 0 | 0, Store 302 0 0, 0 lost
and won again | try_lock 302 0 | 1, Lock 302 1 0, 0 lost
the first ticket | print 4 42 | 0, Print 4 42 0, 0 lost
the second one | print 4 43 | 1, Print 4 43 1, 0 lost
the word of tickets | load 4 0 | 2, Load 4 0 2, 0 lost
the last word | store 1023 1 | 0, Store 1023 1 0, 0 lost
is there | load 1023 0 | 1, Load 1023 0 1, 0 lost
and the first one still | load 0 0 | 197, Load 0 0 197, 0 lost";
