// Examples and edges of the two engines. They stand apart so that the engines are proved without them.
#![tactic(auto)]

#[cfg(test)]
mod tests {
    use cbeam::both_forms::mixed_by_both;
    use cbeam::example;
    use cbeam::plain::Plain;
    use cbeam::plain::rounds::rows_after;
    use cbeam::plain::row::{linear_row, nonlinear_row};
    use cbeam::planar::Planar;
    use engine::Engine;
    use engine::shortfall::Shortfall;
    use engine::whole_state::{read_state, write_state};
    use std::process::Abort;
    use std::test::Fail;

    // The published bytes of the example state after one mixing.
    const MIXED: &[u8; 32] = b"\x32\x54\x1E\x28\x84\xB1\x81\x94\xF0\xAA\xBE\xC9\x28\xA0\x79\x4C\
                               \x69\x4B\xBF\x53\xC0\x53\xE8\xCF\x39\x88\x2A\x9D\xE3\x89\x00\x13";

    fn has_32_places<E: Engine>(rt: &impl Abort, engine: &mut E) {
        assert!(rt; engine.replace(31, 0xA5));
        assert_eq!(rt; engine.byte(31), Some(0xA5));
        assert!(rt; !engine.replace(32, 1));
        assert_eq!(rt; engine.byte(32), None);
        assert_eq!(rt; engine.byte(30), Some(0));
        assert_eq!(rt; engine.byte(0), Some(0));
    }

    fn affords_just<E: Engine>(rt: &impl Abort, engine: &E, left: u32) -> Result<(), Fail> {
        assert_eq!(rt; engine.left(), left);
        assert_eq!(rt; engine.afford(0), Ok(()));
        assert_eq!(rt; engine.afford(left), Ok(()));
        let Some(wanted) = left.checked_add(1) else {
            return Ok(());
        };
        assert_eq!(rt; engine.afford(wanted), Err(Shortfall { wanted, left }));
        Ok(())
    }

    fn refuses_to_mix<E: Engine>(rt: &impl Abort, engine: &mut E) {
        write_state(engine, example::STATE);
        assert_eq!(rt; engine.mix(), Err(Shortfall { wanted: 1, left: 0 }));
        assert!(rt; read_state(engine) == *example::STATE);
        assert_eq!(rt; engine.left(), 0);
    }

    // Engines made with no mixing, with one, and with as many as there can be.
    fn keeps_the_rules<E: Engine + Drop>(
        rt: &impl Abort,
        mut none: E,
        mut one: E,
        most: E,
    ) -> Result<(), Fail> {
        assert!(rt; read_state(&one) == [0; 32]);
        has_32_places(rt, &mut none);
        affords_just(rt, &none, 0)?;
        affords_just(rt, &one, 1)?;
        affords_just(rt, &most, 4_294_967_295)?;
        refuses_to_mix(rt, &mut none);
        write_state(&mut one, example::STATE);
        assert_eq!(rt; one.mix(), Ok(()));
        assert!(rt; read_state(&one) == *MIXED);
        refuses_to_mix(rt, &mut one);
        one.clear();
        assert!(rt; read_state(&one) == [0; 32]);
        Ok(())
    }

    #[test]
    fn plain_engine(rt: HostRuntime) -> Result<(), Fail> {
        keeps_the_rules(&rt, Plain::new(0), Plain::new(1), Plain::new(4_294_967_295))
    }

    #[test]
    fn planar_engine(rt: HostRuntime) -> Result<(), Fail> {
        keeps_the_rules(
            &rt,
            Planar::new(0),
            Planar::new(1),
            Planar::new(4_294_967_295),
        )
    }

    #[test]
    fn both_forms(rt: HostRuntime) {
        let mixed = mixed_by_both(example::STATE);
        assert!(rt; mixed.plain == *MIXED);
        assert!(rt; mixed.planar == *MIXED);
        let ones = mixed_by_both(&[0xFF; 32]);
        assert!(rt; ones.plain == ones.planar);
    }

    #[test]
    fn row_steps(rt: HostRuntime) {
        for (row, stepped) in [(0x5575, 0x7757), (0x9999, 0x9999), (0xFFFF, 0xFFFF)] {
            assert_eq!(rt; linear_row(row), stepped);
        }
        for (row, stepped) in [
            (0x7757, 0x88A8),
            (0x9999, 0x3333),
            (0xFF00, 0xFE0D),
            (0xFFFF, 0xFFFF),
        ] {
            assert_eq!(rt; nonlinear_row(row), stepped);
        }
    }

    #[test]
    fn rounds(rt: HostRuntime) -> Result<(), Fail> {
        for (count, last) in [(0, 0xF012), (1, 0xFE0D), (3, 0x1FB2), (6, 0x1300)] {
            let rows = rows_after(example::STATE, count).ok_or("a round too many")?;
            assert_eq!(rt; rows[15], last);
        }
        assert!(rt; rows_after(example::STATE, 7).is_none());
        Ok(())
    }
}
