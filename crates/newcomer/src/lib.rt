// A kind of plant and a tariff as somebody might bring them who has seen nothing but the two interfaces.
#![tactic(auto)]

pub mod basket;
pub mod lamp;

#[cfg(test)]
mod tests {
    use crate::basket::ByBasket;
    use crate::lamp::Lamp;
    use bookkeeping::book::Open;
    use bookkeeping::refusal::Refusal;
    use certificate::check::check as check_certificate;
    use following::follow::follow;
    use interface::tariff::Tariff;
    use planner::plan::plan;
    use std::test::Fail;

    // The planner and the check serve both newcomers with no change: the plan of a lamp is a sound certificate.
    #[test]
    fn plans_and_certifies(rt: HostRuntime) -> Result<(), Fail> {
        let lamp = Lamp::new(2500).ok_or_else(|| Fail::new("the weight is in range"))?;
        let zero = ByBasket.zero();
        let mut values = [zero; 2];
        let mut working = [zero; 2];
        let mut policy = [7u16; 2];
        let claims = plan(&lamp, &ByBasket, 5, &mut values, &mut working, &mut policy)?;
        assert_eq!(rt; policy[0], 0);
        assert_eq!(rt; policy[1], 1);
        let finding = check_certificate(&lamp, &ByBasket, &values, &policy, claims)?;
        assert_eq!(rt; finding.bottom.seconds, 0);
        assert_eq!(rt; finding.top.seconds, 60_000);
        assert_eq!(rt; finding.top.cents, 500_000);
        assert_eq!(rt; finding.top.fees, 420);
        Ok(())
    }

    // A book of a lamp follows its plan; the outcome that a lamp does not have is refused in the fourth window.
    #[test]
    fn follows(rt: HostRuntime) -> Result<(), Fail> {
        let lamp = Lamp::new(2500).ok_or_else(|| Fail::new("the weight is in range"))?;
        let zero = ByBasket.zero();
        let mut values = [zero; 2];
        let mut working = [zero; 2];
        let mut policy = [7u16; 2];
        let claims = plan(&lamp, &ByBasket, 5, &mut values, &mut working, &mut policy)?;
        let book = Open::make(&lamp, 0).map_err(|_| Fail::new("the lamp has the state"))?;
        let outcomes = [1, 0, 1, 9, 0];
        let followed = follow(&lamp, &ByBasket, &values, &policy, claims, book, &outcomes).map_err(
            |_| Fail::new("the plan is accepted"),
        )?;
        assert_eq!(rt; followed.windows, 3);
        assert!(rt; followed.refused == Some(Refusal::NoOutcome(9)));
        assert_eq!(rt; followed.book.windows(), 4);
        assert_eq!(rt; followed.book.state(), 1);
        assert_eq!(rt; followed.book.portfolio(), Some(1));
        Ok(())
    }
}
