// The two modules, tried: what is found after a cut, when it comes, and what is declined; and a run of words that is cut.

#![tactic(auto)]

#[cfg(test)]
mod tests {
    use device::{Fault, Layer, Module, Refusal};
    use memory::{Battery, Staged};
    use std::process::Abort;
    use std::test::Fail;
    use write_log::{load_run, put_run};

    // Loops go over word numbers where a call takes one: a module is no slice.

    const NO_CUT: [u64; 4] = [u64::MAX; 4];

    const ALL_ONES: u64 = u64::MAX;

    const EVERY_OTHER: u64 = 0x5555_5555_5555_5555;

    // Whether a call is declined for this reason at word i.
    fn declines<T: Drop>(answer: Result<T, Fault>, why: Refusal, i: usize) -> bool {
        answer.err() == Some(Layer::Module.declines(why, i as u64))
    }

    #[test]
    fn an_unsettled_store_is_found_where_the_pattern_has_a_one(
        rt: HostRuntime,
    ) -> Result<(), Fail> {
        let mut current = [0; 70];
        let mut sure = [0; 70];
        let mut module = Staged::new(&mut current, &mut sure, 1 << 3, NO_CUT);
        for i in [3usize, 4, 67, 68] {
            module.store(i, 7)?;
        }
        module.restart();
        assert!(rt; module.load(3)? == 7 && module.load(67)? == 7);
        assert!(rt; module.load(4)? == 0 && module.load(68)? == 0);
        // What was found is sure: it is there after the next restart too.
        module.restart();
        assert!(rt; module.load(3)? == 7 && module.load(4)? == 0);
        Ok(())
    }

    #[test]
    fn a_settled_word_is_found_whatever_the_pattern(rt: HostRuntime) -> Result<(), Fail> {
        for pattern in [0, ALL_ONES, EVERY_OTHER] {
            let mut current = [1; 8];
            let mut sure = [1; 8];
            let mut module = Staged::new(&mut current, &mut sure, pattern, NO_CUT);
            for i in 0..8usize {
                module.store(i, 9)?;
            }
            module.settle(2, 4)?;
            module.restart();
            for i in 0..8usize {
                let settled = (2..6).contains(&i);
                let found = if settled || (pattern >> i) % 2 == 1 {
                    9
                } else {
                    1
                };
                assert_eq!(rt; module.load(i)?, found);
            }
        }
        Ok(())
    }

    // Plays n stores and settles in turn on word 1.
    fn play(module: &mut Staged<'_>, n: u64) -> Result<(), Fault> {
        for i in 0..n {
            if i % 2 == 0 {
                module.store(1, i)?;
            } else {
                module.settle(1, 1)?;
            }
        }
        Ok(())
    }

    // Four lives that allow these counts, each played to its end, and a fifth.
    fn live(rt: &impl Abort, pattern: u64, counts: [u64; 4]) -> Result<(), Fail> {
        let mut current = [0; 8];
        let mut sure = [0; 8];
        let mut module = Staged::new(&mut current, &mut sure, pattern, counts);
        for count in counts {
            play(&mut module, count)?;
            assert!(rt; declines(module.store(2, 5), Refusal::PowerFailed, 2));
            assert!(rt; declines(module.settle(1, 1), Refusal::PowerFailed, 1));
            module.restart();
            // The store that failed was undone.
            assert!(rt; module.load(2)? == 0);
        }
        play(&mut module, 200)?;
        module.store(2, 5)?;
        module.settle(2, 1)?;
        module.restart();
        assert!(rt; module.load(2)? == 5);
        Ok(play(&mut module, 200)?)
    }

    #[test]
    fn each_of_four_lives_is_cut_at_its_count_and_the_fifth_is_not(
        rt: HostRuntime,
    ) -> Result<(), Fail> {
        for pattern in [0, ALL_ONES] {
            live(&rt, pattern, [0; 4])?;
            live(&rt, pattern, [1; 4])?;
            live(&rt, pattern, [5; 4])?;
            live(&rt, pattern, [5, 0, 1, 5])?;
        }
        Ok(())
    }

    #[test]
    fn two_lives_with_counts_of_three_and_none(rt: HostRuntime) -> Result<(), Fail> {
        let mut current = [0; 8];
        let mut sure = [0; 8];
        let mut module = Staged::new(&mut current, &mut sure, 0, [3, 0, 9, 9]);
        module.store(1, 5)?;
        module.settle(1, 1)?;
        module.store(2, 6)?;
        assert!(rt; declines(module.settle(2, 1), Refusal::PowerFailed, 2));
        module.restart();
        assert!(rt; module.load(1)? == 5 && module.load(2)? == 0);
        assert!(rt; declines(module.store(2, 6), Refusal::PowerFailed, 2));
        module.restart();
        assert!(rt; module.load(1)? == 5 && module.load(2)? == 0);
        Ok(())
    }

    #[test]
    fn a_restart_before_the_cut_begins_the_next_life(rt: HostRuntime) -> Result<(), Fail> {
        let mut current = [0; 8];
        let mut sure = [0; 8];
        let mut module = Staged::new(&mut current, &mut sure, 0, [5, 0, 5, 5]);
        module.store(1, 1)?;
        module.restart();
        assert!(rt; declines(module.store(1, 1), Refusal::PowerFailed, 1));
        Ok(())
    }

    #[test]
    fn a_store_or_settle_that_is_declined_counts_and_a_load_does_not(
        rt: HostRuntime,
    ) -> Result<(), Fail> {
        let mut current = [0; 8];
        let mut sure = [0; 8];
        let mut module = Staged::new(&mut current, &mut sure, 0, [4, 0, 0, 0]);
        module.store(1, 1)?;
        assert!(rt; declines(module.store(1, 2), Refusal::UnsettledWord, 1));
        assert!(rt; declines(module.store(8, 2), Refusal::OutOfRange, 8));
        for _ in 0..10 {
            assert!(rt; module.load(1)? == 1);
        }
        assert!(rt; declines(module.settle(7, 2), Refusal::OutOfRange, 7));
        assert!(rt; module.load(1)? == 1);
        assert!(rt; declines(module.settle(1, 1), Refusal::PowerFailed, 1));
        Ok(())
    }

    #[test]
    fn an_unsettled_word_takes_no_store(rt: HostRuntime) -> Result<(), Fail> {
        let mut current = [0; 8];
        let mut sure = [0; 8];
        let mut module = Staged::new(&mut current, &mut sure, 0, NO_CUT);
        module.store(3, 1)?;
        for v in [2, 1, 0] {
            assert!(rt; declines(module.store(3, v), Refusal::UnsettledWord, 3));
        }
        module.settle(3, 1)?;
        module.store(3, 2)?;
        assert!(rt; module.load(3)? == 2);
        Ok(())
    }

    #[test]
    fn a_word_that_is_stored_as_it_was_is_settled(rt: HostRuntime) -> Result<(), Fail> {
        let mut current = [0; 8];
        let mut sure = [0; 8];
        let mut module = Staged::new(&mut current, &mut sure, 0, NO_CUT);
        module.store(5, 0)?;
        module.store(5, 6)?;
        assert!(rt; module.load(5)? == 6);
        Ok(())
    }

    #[test]
    fn a_dark_module_declines_everything_until_its_restart(rt: HostRuntime) -> Result<(), Fail> {
        let mut current = [3; 8];
        let mut sure = [3; 8];
        let mut module = Staged::new(&mut current, &mut sure, ALL_ONES, [1, 1, 1, 1]);
        module.store(0, 4)?;
        assert!(rt; declines(module.settle(0, 1), Refusal::PowerFailed, 0));
        for i in [0usize, 7, 8, usize::MAX] {
            assert!(rt; declines(module.load(i), Refusal::PowerFailed, i));
            assert!(rt; declines(module.store(i, 9), Refusal::PowerFailed, i));
            assert!(rt; declines(module.settle(i, 1), Refusal::PowerFailed, i));
        }
        assert!(rt; module.width() == 8);
        module.restart();
        assert!(rt; module.load(0)? == 4 && module.load(7)? == 3);
        module.store(7, 5)?;
        assert!(rt; module.load(7)? == 5);
        Ok(())
    }

    // What any module of 8 words declines, and what it does at its end.
    fn tries_the_end<M: Module>(rt: &impl Abort, module: &mut M) -> Result<(), Fail> {
        for i in [8usize, usize::MAX] {
            assert!(rt; declines(module.load(i), Refusal::OutOfRange, i));
            assert!(rt; declines(module.store(i, 1), Refusal::OutOfRange, i));
        }
        for (i, c) in [
            (0usize, 9usize),
            (9, 0),
            (1, usize::MAX),
            (usize::MAX, usize::MAX),
        ] {
            assert!(rt; declines(module.settle(i, c), Refusal::OutOfRange, i));
        }
        module.store(7, 1)?;
        for (i, c) in [(8usize, 0usize), (7, 1), (0, 8)] {
            module.settle(i, c)?;
        }
        module.restart();
        assert!(rt; module.width() == 8 && module.load(7)? == 1);
        Ok(())
    }

    #[test]
    fn past_the_end(rt: HostRuntime) -> Result<(), Fail> {
        let mut current = [0; 8];
        let mut sure = [0; 9];
        tries_the_end(&rt, &mut Staged::new(&mut current, &mut sure, 0, NO_CUT))?;
        let mut current = [0; 9];
        let mut sure = [0; 8];
        tries_the_end(&rt, &mut Staged::new(&mut current, &mut sure, 0, NO_CUT))?;
        let mut words = [0; 8];
        tries_the_end(&rt, &mut Battery::new(&mut words))
    }

    // A run of four words that are 1 becomes 9, with power for `count` stores and settles.
    fn put_with_a_cut(rt: &impl Abort, pattern: u64, count: u64) -> Result<(), Fail> {
        let mut current = [1; 8];
        let mut sure = [1; 8];
        let mut module = Staged::new(&mut current, &mut sure, pattern, [count; 4]);
        // Four stores and a settle.
        assert!(rt; put_run(&mut module, 2, &[9; 4]).is_ok() == (count >= 5));
        module.restart();
        let mut found = [0; 8];
        load_run(&mut module, 0, &mut found)?;
        for (i, &v) in found.iter().enumerate() {
            let stored = (2..6).contains(&i);
            assert!(rt; v == 1 || (stored && v == 9));
            assert!(rt; count < 5 || !stored || v == 9);
        }
        Ok(())
    }

    #[test]
    fn a_run_that_is_cut_is_found_old_or_new_word_by_word(rt: HostRuntime) -> Result<(), Fail> {
        for pattern in [0, ALL_ONES, EVERY_OTHER] {
            for count in 0..7 {
                put_with_a_cut(&rt, pattern, count)?;
            }
        }
        Ok(())
    }

    #[test]
    fn a_battery_keeps_every_store(rt: HostRuntime) -> Result<(), Fail> {
        let mut words = [0; 8];
        let mut module = Battery::new(&mut words);
        for i in 0..8usize {
            module.store(i, 7)?;
            module.store(i, 9)?;
        }
        module.restart();
        for i in 0..8usize {
            assert!(rt; module.load(i)? == 9);
        }
        assert!(rt; words == [9; 8]);
        Ok(())
    }
}
